// What OPTIONS is answered with.
ghost use Rattle.std.specs.Prelude.{◌≡◌, ◌++◌, ◌∷◌, [], IfOk, OnOk, codes, map, string_bytes};
ghost use Rattle.std.specs.List.{filter, join_by};
ghost use Rattle.dav_model.specs.Allowing.{allowing, answered, is_told as the_is_told, word_of as the_word_of, words_told as the_words_told};
ghost use Rattle.dav_model.specs.Gates.{in_allowed};
ghost use Rattle.dav_model.specs.Head.{field};

use dav_core::{DavMethod, DavMethodSet};
use dav_io::{Fields, NoMemory, Text, add_field};
use dav_model::Outcome;
use std::alloc::Global;

// The word of a method.
fn word_of(method: DavMethod) -> &'static str
    ensures { result.now ≡ the_word_of method }
{
    match method {
        DavMethod::Head => "HEAD",
        DavMethod::Get => "GET",
        DavMethod::Put => "PUT",
        DavMethod::Patch => "PATCH",
        DavMethod::Options => "OPTIONS",
        DavMethod::PropFind => "PROPFIND",
        DavMethod::PropPatch => "PROPPATCH",
        DavMethod::MkCol => "MKCOL",
        DavMethod::Copy => "COPY",
        DavMethod::Move => "MOVE",
        DavMethod::Delete => "DELETE",
        DavMethod::Lock => "LOCK",
        DavMethod::Unlock => "UNLOCK",
        DavMethod::Report => "REPORT",
        DavMethod::MkCalendar => "MKCALENDAR",
        DavMethod::MkAddressbook => "MKADDRESSBOOK",
    }
}

/// Whether a method is among those that are set; without a set each is.
pub fn is_among(allow: Option<DavMethodSet>, method: DavMethod) -> bool
    ensures { result ≡ in_allowed allow method }
{
    match allow {
        None => true,
        Some(set) => set.contains(method),
    }
}

// Whether a method is told: without a store OPTIONS alone is, where it is allowed.
fn is_told(allow: Option<DavMethodSet>, void: bool, method: DavMethod) -> bool
    ensures { result ≡ the_is_told allow void method }
{
    if void && is_among(allow, DavMethod::Options) {
        return method == DavMethod::Options;
    }
    is_among(allow, method)
}

// The words of those of these methods that are told.
fn words_of(
    alloc: Global,
    allow: Option<DavMethodSet>,
    void: bool,
    methods: &[DavMethod],
) -> Result<Vec<&'static str>, NoMemory>
    ensures { IfOk result (λ words. map (λ word. word.now) words.items
        ≡ map the_word_of (filter (the_is_told allow void) methods.now)) }
{
    let mut words = Vec::new(alloc);
    for method in methods {
        if is_told(allow, void, *method) {
            words.push(word_of(*method))?;
        }
    }
    Ok(words)
}

// The words of the methods that are told.
fn words_told(
    alloc: Global,
    allow: Option<DavMethodSet>,
    void: bool,
) -> Result<Vec<&'static str>, NoMemory>
    ensures { IfOk result (λ words. map (λ word. word.now) words.items ≡ the_words_told allow void) }
{
    let answered = [
        DavMethod::Options,
        DavMethod::Head,
        DavMethod::Get,
        DavMethod::Put,
        DavMethod::MkCol,
        DavMethod::Copy,
        DavMethod::Move,
        DavMethod::Delete,
        DavMethod::MkCalendar,
        DavMethod::MkAddressbook,
    ];
    words_of(alloc, allow, void, &answered)
}

// These words with commas between them.
#[tactic(auto, using(crate::proofs::texts::WordsJoined::joined_words))]
fn told(alloc: Global, allow: Option<DavMethodSet>, void: bool) -> Result<String, NoMemory>
    ensures { IfOk result (λ text. string_bytes text ≡ join_by (λ word. word) (codes ",") (the_words_told allow void)) }
{
    let words = words_told(alloc, allow, void)?;
    Ok(words.join(alloc, ",")?)
}

/// What OPTIONS is answered with: 200, and the methods that are answered among those that are allowed (RFC 9110,
/// section 9.3.7; RFC 4918, section 10.1). `void` is whether there is no store: then OPTIONS alone is told, where it is
/// allowed. It asks no disk.
pub fn options(alloc: Global, allow: Option<DavMethodSet>, void: bool) -> Result<Outcome, NoMemory>
    ensures status { IfOk result (λ outcome. outcome.status ≡ (allowing allow void).status) }
    ensures fields { IfOk result (λ outcome. outcome.fields ≡ (allowing allow void).fields) }
{
    let told = told(alloc, allow, void)?;
    let mut fields = Vec::with_capacity(alloc, 4)?;
    add_field(&mut fields, Text::copy(alloc, "allow")?, told.as_bytes())?;
    add_field(&mut fields, Text::copy(alloc, "content-length")?, b"0")?;
    add_field(
        &mut fields,
        Text::copy(alloc, "dav")?,
        b"1,3,calendar-access,addressbook",
    )?;
    add_field(&mut fields, Text::copy(alloc, "ms-author-via")?, b"DAV")?;
    Ok(Outcome {
        status: 200,
        fields: Fields::new(fields),
    })
}
