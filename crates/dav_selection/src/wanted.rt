// What is wanted of the resources of a store.
ghost use Rattle.std.specs.Prelude.{◌≡◌, ◌++◌, IfOk, OnOk, Ok};
ghost use Rattle.std.specs.Option.{is_some};
ghost use Rattle.std.specs.Str.Lossy.{utf8_lossy};
ghost use Rattle.dav_selection.specs.Answered.{given};
ghost use Rattle.dav_selection.specs.Taken.{is_data as is_wanted_data, matches as is_match, taken};

use crate::resource::Resource;
use dav_core::DavPath;
use dav_io::{NoMemory, Text};
use dav_matching::{Folds, address_matches, calendar_matches};
use dav_report::caldav::ComponentFilter;
use dav_report::carddav::PropertyFilter;
use dav_report::{Record, is_calendar_data, is_vcard_data};
use std::alloc::Global;

/// Which resources are wanted.
#[derive(Clone, Copy)]
pub enum Wanted<'a> {
    /// The calendar objects that the filter matches.
    Calendars(&'a Option<ComponentFilter>),
    /// The vCards that the filter matches.
    Cards(&'a Option<PropertyFilter>),
}

// The content as a text. What isn't UTF-8 in it is replaced.
fn text_of(alloc: Global, content: &[u8]) -> Result<Text, NoMemory>
    ensures { IfOk result (λ text. text ≡ utf8_lossy content.now) }
{
    Ok(Text::new(String::from_utf8_lossy(alloc, content)?))
}

impl Wanted<'_> {
    /// Whether the content is data of this kind.
    fn is_data(self, content: &[u8]) -> bool
        ensures { result ≡ is_wanted_data self.entry content.now }
    {
        match self {
            Wanted::Calendars(_) => is_calendar_data(content),
            Wanted::Cards(_) => is_vcard_data(content),
        }
    }

    fn matches(self, folds: &mut Folds, text: &Text) -> Result<bool, NoMemory>
        ensures { IfOk result (λ matched. matched ≡ is_match self.entry text.now) }
    {
        match self {
            Wanted::Calendars(filter) => calendar_matches(folds, filter, text),
            Wanted::Cards(filter) => address_matches(folds, filter, text),
        }
    }

    /// The text of a content that is wanted.
    pub(crate) fn take(
        self,
        alloc: Global,
        folds: &mut Folds,
        content: &[u8],
    ) -> Result<Option<Text>, NoMemory>
        ensures { IfOk result (λ text. text ≡ taken self.entry content.now) }
    {
        if !self.is_data(content) {
            return Ok(None);
        }
        let text = text_of(alloc, content)?;
        if self.matches(folds, &text)? {
            return Ok(Some(text));
        }
        Ok(None)
    }
}

/// Adds the record of a resource, where it is wanted. It answers whether it is.
pub(crate) fn add_wanted(
    alloc: Global,
    wanted: Wanted<'_>,
    path: DavPath,
    resource: Resource,
    folds: &mut Folds,
    records: &mut Vec<Record>,
) -> Result<bool, NoMemory>
    ensures records { OnOk result (records.new.items ≡ records.old.items ++ given (taken wanted.entry) path
        (Ok resource)) }
    ensures taken { IfOk result (λ added. added ≡ is_some (taken wanted.entry resource.content)) }
{
    let Some(text) = wanted.take(alloc, folds, resource.content.as_slice())? else {
        return Ok(false);
    };
    records.push(Record {
        path,
        etag: resource.etag,
        text,
    })?;
    Ok(true)
}
