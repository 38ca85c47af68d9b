//! Documents.
ghost use Rattle.std.specs.Prelude.{◌≡◌, ◌≤◌, length, ◌++◌, OnOk};
ghost use Rattle.std.specs.List.{AllByRecursion, flat_map};
ghost use Rattle.std.specs.Option.{option_map};
ghost use Rattle.act_model.specs.Limits.{most_docs};
ghost use Rattle.act_codec.specs.Spelling.{counted, form_bytes, doc_bytes};
ghost use Rattle.act_codec.specs.Values.{IsDoc, AreDocs};
ghost use Rattle.act_codec.specs.inner.Reading.{Gives, Found, FoundDoc, IsAny, read_times, read_counted, read_form, read_consent, read_doc};

use crate::reader::Reader;
use crate::writer::Writer;
use act_model::{Doc, Docs, Form};
use arrayvec::ArrayVec;
use gb_base::NoMemory;

#[tactic(auto, unfolding(crate::specs::inner::Reading::read_form))]
fn read_form(from: &mut Reader) -> Option<Form>
    ensures read { Gives result from.new (read_form from.old) }
    ensures found { Found result from.old from.new form_bytes IsAny }
{
    match from.u8()? {
        1 => Some(Form::Certified),
        2 => Some(Form::Plain),
        _ => None,
    }
}

#[tactic(auto, unfolding(crate::specs::inner::Reading::read_consent))]
fn read_consent(act: u8, from: &mut Reader) -> Option<Doc>
    ensures read { Gives result from.new (read_consent act from.old) }
    ensures found { FoundDoc 1 act result from.old from.new }
{
    Some(Doc::Consent {
        act,
        person: from.person()?,
        form: read_form(from)?,
    })
}

#[tactic(auto, unfolding(crate::specs::inner::Reading::read_doc))]
fn read_doc(from: &mut Reader) -> Option<Doc>
    ensures read { Gives result from.new (read_doc from.old) }
    ensures found { Found result from.old from.new doc_bytes IsDoc }
{
    let tag = from.u8()?;
    let act = from.u8()?;
    match tag {
        1 => read_consent(act, from),
        2 => Some(Doc::Agreement { act }),
        3 => Some(Doc::TaxClearance { act }),
        4 => Some(Doc::ExpiryProof { act }),
        _ => None,
    }
}

/// `count` documents, one after another.
fn read_list(count: u8, from: &mut Reader) -> Option<ArrayVec<Doc, 32>>
    requires { count ≤ most_docs }
    ensures read { Gives (option_map (λ v. v.items) result) from.new (read_times read_doc count from.old) }
    ensures found { Found (option_map (λ v. v.items) result) from.old from.new (flat_map doc_bytes)
        (λ docs. (length docs ≡ count) × AllByRecursion IsDoc docs) }
{
    let mut docs = ArrayVec::new();
    for _ in 0..count {
        docs.push(read_doc(from)?);
    }
    Some(docs)
}

/// A count of at most 32, and then that many documents.
pub fn read_docs(from: &mut Reader) -> Option<Docs>
    ensures read { Gives result from.new (read_counted most_docs read_doc from.old) }
    ensures found { Found result from.old from.new (counted doc_bytes) AreDocs }
{
    let count = from.u8()?;
    if count > 32 {
        return None;
    }
    Some(Docs::new(read_list(count, from)?))
}

fn put_form(to: &mut Writer, form: Form) -> Result<(), NoMemory>
    ensures wrote { OnOk result (to.new ≡ to.old ++ form_bytes form) }
{
    match form {
        Form::Certified => to.u8(1),
        Form::Plain => to.u8(2),
    }
}

fn put_doc(to: &mut Writer, doc: Doc) -> Result<(), NoMemory>
    ensures wrote { OnOk result (to.new ≡ to.old ++ doc_bytes doc) }
    ensures held { OnOk result (IsDoc doc) }
{
    match doc {
        Doc::Consent { act, person, form } => {
            to.u8(1)?;
            to.u8(act)?;
            to.person(person)?;
            put_form(to, form)?;
            Ok(())
        }
        Doc::Agreement { act } => {
            to.u8(2)?;
            to.u8(act)?;
            Ok(())
        }
        Doc::TaxClearance { act } => {
            to.u8(3)?;
            to.u8(act)?;
            Ok(())
        }
        Doc::ExpiryProof { act } => {
            to.u8(4)?;
            to.u8(act)?;
            Ok(())
        }
    }
}

fn put_list(to: &mut Writer, docs: &[Doc]) -> Result<(), NoMemory>
    ensures wrote { OnOk result (to.new ≡ to.old ++ flat_map doc_bytes docs.now) }
    ensures held { OnOk result (AllByRecursion IsDoc docs.now) }
{
    for doc in docs {
        put_doc(to, *doc)?;
    }
    Ok(())
}

/// Writes the count of the documents, and then each document.
pub fn put_docs(to: &mut Writer, docs: &Docs) -> Result<(), NoMemory>
    ensures wrote { OnOk result (to.new ≡ to.old ++ counted doc_bytes docs.now) }
    ensures held { OnOk result (AreDocs docs.now) }
{
    let list = docs.list();
    to.u8(list.len() as u8)?;
    put_list(to, list)?;
    Ok(())
}
