//! Letters as rows ask for them.

use mk_mail::Letters;
use mk_rows::Row;
use std::alloc::{AllocError, Global};

fn no_letters(alloc: Global) -> Letters {
    Letters {
        prepend: None,
        drops: Vec::new(alloc),
        keeps: Vec::new(alloc),
        keep_only: false,
        rename: None,
        add_if: None,
        add: None,
        prefixed: None,
        only: None,
        first: None,
        last: None,
        take: None,
        whole: None,
    }
}

/// One letter, which leaves one field of its name.
pub fn only(alloc: Global, field: &[u8]) -> Result<Letters, AllocError> {
    let mut letters = no_letters(alloc);
    letters.only = Some(Vec::from_slice(alloc, field)?);
    Ok(letters)
}

/// The letters that a row asks for.
pub fn letters_in(alloc: Global, row: &Row) -> Result<Letters, AllocError> {
    let mut letters = no_letters(alloc);
    for cell in &row.cells {
        let value = Vec::from_slice(alloc, &cell.bytes)?;
        match cell.key {
            "rename" => {
                let new = Vec::from_slice(alloc, row.bytes("to"))?;
                letters.rename = Some((value, new));
            }
            "add if" => letters.add_if = Some(value),
            "add" => letters.add = Some(value),
            "prefixed" => letters.prefixed = Some(value),
            "only" => letters.only = Some(value),
            "first" => letters.first = Some(value),
            "last" => letters.last = Some(value),
            "take" => letters.take = Some(value),
            "whole" => letters.whole = Some(value),
            _ => {}
        }
    }
    Ok(letters)
}
