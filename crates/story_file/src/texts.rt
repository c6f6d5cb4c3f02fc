//! What the descriptions of a tale's objects say.
ghost use Rattle.std.specs.Prelude.{IfOk, OnOk};
ghost use Rattle.i7_resolution.specs.Resolutions.{scope_in};
ghost use Rattle.story_file.specs.Meanings.{AreTexts};
ghost use Rattle.story_file.specs.Texts.{AddsText, AreReadable, IsReadable, texts_kept};

use i7_conditions::Found;
use i7_names::SourceNames;
use i7_resolution::text_said;
use play_meaning::tree::Text;
use std::alloc::{AllocError, Global};
use world_meaning::{Object, TextBytes};

/// Adds what a description says, if there is one.
fn add_text(
    alloc: Global,
    names: &SourceNames,
    description: &Option<TextBytes>,
    texts: &mut Vec<Text>,
) -> Result<(), AllocError>
    requires { IsReadable (scope_in names.now) description.now }
    ensures { OnOk result (AddsText (scope_in names.now) description.now texts.old.items texts.new.items) }
{
    let Some(bytes) = description else {
        return Ok(());
    };
    match text_said(alloc, names, bytes.as_slice())? {
        Found::Read(text) => Ok(texts.push(text)?),
        Found::TooMany | Found::Unread => unreachable!(),
    }
}

/// What the descriptions of these objects say, in the order of those that have one.
pub fn texts_of(
    alloc: Global,
    names: &SourceNames,
    objects: &[Object],
) -> Result<Vec<Text>, AllocError>
    requires { AreReadable (scope_in names.now) objects.now }
    ensures { IfOk result (λ texts. AreTexts (scope_in names.now) objects.now (texts_kept texts.items)) }
{
    let mut texts = Vec::new(alloc);
    let mut rest = objects;
    while let [object, after @ ..] = rest {
        add_text(alloc, names, &object.description, &mut texts)?;
        rest = after;
    }
    Ok(texts)
}
