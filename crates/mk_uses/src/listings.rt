//! A listing walked: the attachments of a message, each with its content.
ghost use Rattle.std.specs.Prelude.{◌≡◌, [], false, map, IfErr, IfOk};
ghost use Rattle.mk_tree.specs.Documents.{tree};
ghost use Rattle.mk_view.specs.TextNames.{all_stored_in, plain_storing};
ghost use Rattle.mk_view.specs.GivenNames.{AreDistinct, AreGiven, AreSafe};
ghost use Rattle.mk_uses.specs.Walked.{AreContents, IsRefusedSomewhere, path_and_name};

use mk_tree::Doc;
use mk_view::{ExtractError, Leaf, content, leaves};
use std::alloc::Global;

/// An attachment of a message.
#[derive(Drop)]
pub struct Attachment {
    pub path: Vec<u32>,
    /// A name under which it can be stored: no two of a message are alike, and none leads elsewhere.
    pub name: Vec<u8>,
    pub content: Vec<u8>,
}

/// The attachments of a message: its leaves but the texts without a name, each with its content decoded.
pub fn attachments(alloc: Global, doc: &Doc) -> Result<Vec<Attachment>, ExtractError>
    ensures decoded { IfOk result (λ found. AreContents (tree doc.now) found.items) }
    ensures refused { IfErr result (λ error. IsRefusedSomewhere (tree doc.now) error) }
    ensures given { IfOk result (λ found. AreGiven [] (all_stored_in (plain_storing false) (tree doc.now)) (map path_and_name found.items)) }
    ensures distinct { IfOk result (λ found. AreDistinct [] (map path_and_name found.items)) }
    ensures safe { IfOk result (λ found. AreSafe (map path_and_name found.items)) }
{
    let stored = match leaves(alloc, doc, false) {
        Ok(stored) => stored,
        Err(_) => return Err(ExtractError::Memory),
    };
    let mut found = Vec::new(alloc);
    for leaf in stored {
        let Leaf {
            path,
            name,
            section,
        } = leaf;
        let content = content(alloc, &section)?;
        let attachment = Attachment {
            path,
            name,
            content,
        };
        match found.push(attachment) {
            Ok(()) => {}
            Err(_) => return Err(ExtractError::Memory),
        }
    }
    Ok(found)
}
