//! What is put down for a message that is to be built.
ghost use Rattle.std.specs.Prelude.{◌∷◌, ◌≡◌, ◌≢◌, ◌++◌, [], None, IfErr, IfOk};
ghost use Rattle.std.specs.Option.{option_map};
ghost use Rattle.mk_build.specs.ForwardViews.{IsRefusedWith};
ghost use Rattle.mk_build.specs.Forwards.{built_with, refusal_with};
ghost use Rattle.mk_build.specs.Multiparts.{multipart_of};
ghost use Rattle.mk_c.specs.Building.{Extends};
ghost use Rattle.mk_c.specs.Desks.{forwarded, no_draft, part_of};

use crate::status::Reason;
use mk_build::{Attach, BuildError, Forward, Multipart, build_with};
use mk_line::Ending;
use std::alloc::Global;
use std::marker::Model;

/// The fields, the parts and the forwarded messages of a message that is to be built.
#[derive(Drop)]
pub(crate) struct Draft {
    fields: Vec<Vec<u8>>,
    parts: Vec<Attach>,
    messages: Vec<Forward>,
}

impl Model for Draft {
    ghost use Rattle.std.specs.Prelude.{map, true};
    ghost use Rattle.mk_build.specs.BuildViews.{written_in};
    ghost use Rattle.mk_build.specs.ForwardViews.{forwarded_of};
    ghost use Rattle.mk_c.specs.Desks.{Drafted};

    ghost Value = { Drafted };

    ghost view = { λ d. record { fields = map (λ f. f.items) d.fields.items; parts = map (written_in true) d.parts.items; messages = map forwarded_of d.messages.items } };
}

impl Draft {
    /// Nothing is put down.
    pub(crate) fn new(alloc: Global) -> Draft
        ensures { result ≡ no_draft }
    {
        Draft {
            fields: Vec::new(alloc),
            parts: Vec::new(alloc),
            messages: Vec::new(alloc),
        }
    }

    /// Puts a field down after the others.
    pub(crate) fn put_field(&mut self, alloc: Global, text: &[u8]) -> Result<(), Reason>
        ensures { Extends (λ d. record d { fields = d.fields ++ text.now ∷ [] }) result self.old self.new }
    {
        match self.fields.push(Vec::from_slice(alloc, text)?) {
            Ok(()) => Ok(()),
            Err(_) => Err(Reason::Memory),
        }
    }

    /// Puts a part down after the others.
    pub(crate) fn put_part(
        &mut self,
        alloc: Global,
        media: &[u8],
        name: Option<&[u8]>,
        text: &[u8],
        base64: bool,
    ) -> Result<(), Reason>
        ensures { Extends (λ d. record d { parts = d.parts ++ part_of media.now (option_map (λ n. n.now) name.entry) text.now base64 ∷ [] }) result self.old self.new }
    {
        let name = match name {
            Some(name) => Some(Vec::from_slice(alloc, name)?),
            None => None,
        };
        let part = Attach {
            media: Vec::from_slice(alloc, media)?,
            name,
            text: Vec::from_slice(alloc, text)?,
            base64,
        };
        match self.parts.push(part) {
            Ok(()) => Ok(()),
            Err(_) => Err(Reason::Memory),
        }
    }

    /// Puts a message that is forwarded down after the others.
    pub(crate) fn put_message(
        &mut self,
        alloc: Global,
        text: &[u8],
        inline: bool,
    ) -> Result<(), Reason>
        ensures { Extends (λ d. record d { messages = d.messages ++ forwarded text.now inline ∷ [] }) result self.old self.new }
    {
        let message = Forward {
            text: Vec::from_slice(alloc, text)?,
            inline,
        };
        match self.messages.push(message) {
            Ok(()) => Ok(()),
            Err(_) => Err(Reason::Memory),
        }
    }

    /// Builds the message, with names in UTF-8 also written as they are.
    pub(crate) fn build(
        &self,
        alloc: Global,
        multipart: &Multipart<'_>,
        eol: Ending,
    ) -> Result<Vec<u8>, BuildError>
        requires { eol ≢ Ending.Missing }
        ensures text { IfOk result (λ text. (refusal_with self.now.fields self.now.parts self.now.messages (multipart_of multipart.now) ≡ None) × (text.items ≡ built_with eol self.now.fields self.now.parts self.now.messages (multipart_of multipart.now))) }
        ensures refused { IfErr result (λ error. IsRefusedWith self.now.fields self.now.parts self.now.messages (multipart_of multipart.now) error) }
    {
        let multipart = Multipart {
            utf8_names: true,
            ..*multipart
        };
        build_with(
            alloc,
            &self.fields,
            &self.parts,
            &self.messages,
            &multipart,
            eol,
        )
    }
}
