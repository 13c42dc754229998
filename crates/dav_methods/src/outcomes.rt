// The answers of the methods that write, where all was done.
ghost use Rattle.std.specs.Prelude.{◌≡◌, IfOk};
ghost use Rattle.dav_methods.specs.Lines.{made, silent as the_silent, unless};
ghost use Rattle.dav_walks.specs.Removing.{line_of};

use dav_core::{DavError, FsError};
use dav_io::{FieldName, Items, NoMemory, Text, add_field};
use dav_model::Outcome;
use std::alloc::Global;

// 201, which says that it has no body.
pub fn created(alloc: Global) -> Result<Outcome, NoMemory>
    ensures { IfOk result (λ outcome. outcome ≡ made) }
{
    let mut fields = Vec::new(alloc);
    add_field(&mut fields, Text::known(FieldName::ContentLength), b"0")?;
    Ok(Outcome {
        status: 201,
        fields: Items::new(fields),
    })
}

// 204, without a field.
pub fn silent(alloc: Global) -> Outcome
    ensures { result ≡ the_silent }
{
    Outcome {
        status: 204,
        fields: Items::new(Vec::new(alloc)),
    }
}

// The answer where no line fits, or its error.
pub fn answer(line: Result<(), DavError>, outcome: Outcome) -> Result<Outcome, DavError>
    ensures { result ≡ unless line outcome }
{
    match line {
        Ok(()) => Ok(outcome),
        Err(error) => Err(error),
    }
}

// The answer after a call of a file, or its refusal.
pub fn answer_written(ended: Result<(), FsError>, outcome: Outcome) -> Result<Outcome, DavError>
    ensures { result ≡ unless (line_of ended) outcome }
{
    match ended {
        Ok(()) => Ok(outcome),
        Err(refusal) => Err(DavError::from(refusal)),
    }
}
