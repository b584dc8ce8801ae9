//! What is found in a section.
ghost use Rattle.std.specs.Prelude.{◌≡◌, ◌++◌, ◌<◌, ◌^◌, List, None, map, IfOk, OnOk};
ghost use Rattle.std.specs.List.{flat_map};
ghost use Rattle.mk_head.specs.ValueViews.{media_type_of};
ghost use Rattle.mk_tree.specs.Forms.{kind_in};
ghost use Rattle.mk_tree.specs.Sections.{children};
ghost use Rattle.mk_check.specs.Findings.{FoundFault, AreContentFaults, AreFaults, boundary_faults, section_end, field_place, has_extended_boundary, lacks_boundary, last_end as end_of_last, line_faults, multi_faults_by, own_text as own_text_of, place_if, repeated_field, single_names as names_that_are_single, unseparated};
ghost use Rattle.mk_check.specs.inner.FoundViews.{found_of};

use crate::faults::{Fault, Finding, push_at};
use crate::places::{LineKind, place_from};
use crate::words::has_words_beside;
use mk_head::ContentType;
use mk_line::trimmed;
use mk_tree::{Kind, Section};
use mk_view::{ExtractError, content_size, media_type};
use std::alloc::{AllocError, Global};

const CONTENT_TYPE: &str = "Content-Type";

const CONTENT_DISPOSITION: &str = "Content-Disposition";

const TRANSFER_ENCODING: &str = "Content-Transfer-Encoding";

/// All that is found in a section.
pub(crate) fn faults_in(alloc: Global, section: &Section<'_>) -> Result<Vec<Finding>, AllocError>
    ensures { IfOk result (λ found. AreFaults section.now (map found_of found.items)) }
{
    let end = section.end();
    let mut found = Vec::new(alloc);
    push_line_faults(&mut found, section)?;
    push_repeated(&mut found, section)?;
    push_unseparated(alloc, &mut found, section, CONTENT_TYPE)?;
    push_unseparated(alloc, &mut found, section, CONTENT_DISPOSITION)?;
    push_boundary_faults(alloc, &mut found, section)?;
    push_multi_faults(&mut found, section, end)?;
    push_content_faults(alloc, &mut found, section)?;
    Ok(found)
}

// What is found in the lines of a section.
fn push_line_faults(found: &mut Vec<Finding>, section: &Section<'_>) -> Result<(), AllocError>
    requires { section_end section.now < 2 ^ 64 }
    ensures { OnOk result (map found_of found.new.items ≡ map found_of found.old.items ++ line_faults section.now) }
{
    let start = section.start();
    let head = section.head();
    let own = own_text(section);
    let place = place_from(start, head, LineKind::NotAscii, true);
    push_at(found, Fault::NotAscii, "", place)?;
    let place = place_from(start, own, LineKind::TooLong, true);
    push_at(found, Fault::LongLine, "", place)?;
    let place = place_from(start, own, LineKind::HasNul, true);
    push_at(found, Fault::HasNul, "", place)
}

// The text of a section that no section below it holds.
fn own_text<'a>(section: &Section<'a>) -> &'a [u8]
    ensures { result.now ≡ own_text_of section.now }
{
    match section.kind() {
        Kind::Leaf => section.raw(),
        Kind::Multi | Kind::Message => section.head(),
    }
}

// The fields that come again.
fn push_repeated(found: &mut Vec<Finding>, section: &Section<'_>) -> Result<(), AllocError>
    requires { section_end section.now < 2 ^ 64 }
    ensures { OnOk result (map found_of found.new.items ≡ map found_of found.old.items ++ flat_map (repeated_field section.now) names_that_are_single) }
{
    let names = single_names();
    for name in &names {
        push_again(found, section, name)?;
    }
    Ok(())
}

// A field of this name that comes again.
fn push_again(
    found: &mut Vec<Finding>,
    section: &Section<'_>,
    name: &'static str,
) -> Result<(), AllocError>
    requires { section_end section.now < 2 ^ 64 }
    ensures { OnOk result (map found_of found.new.items ≡ map found_of found.old.items ++ repeated_field section.now name.now) }
{
    let kind = LineKind::Begins(name.as_bytes());
    let place = place_from(section.start(), section.head(), kind, false);
    push_at(found, Fault::Repeated, name, place)
}

// The names of fields that a header has once at most (RFC 5322, 3.6; RFC 2045, 3; RFC 2183, 2).
fn single_names() -> [&'static str; 17]
    ensures { map (λ name. name.now) result ≡ names_that_are_single }
{
    [
        "Date",
        "From",
        "Sender",
        "Reply-To",
        "To",
        "Cc",
        "Bcc",
        "Message-ID",
        "In-Reply-To",
        "References",
        "Subject",
        "MIME-Version",
        "Content-Type",
        "Content-Transfer-Encoding",
        "Content-ID",
        "Content-Description",
        "Content-Disposition",
    ]
}

// Where the first field of a name begins; where the section begins, if there is none.
fn place_of_field(section: &Section<'_>, name: &str) -> usize
    requires { section_end section.now < 2 ^ 64 }
    ensures { result ≡ field_place section.now name.now }
{
    let start = section.start();
    let kind = LineKind::Begins(name.as_bytes());
    place_from(start, section.head(), kind, true).unwrap_or(start)
}

// The place of a field, where a condition holds.
fn place_when(section: &Section<'_>, name: &str, holds: bool) -> Option<usize>
    requires { section_end section.now < 2 ^ 64 }
    ensures { result ≡ place_if holds (field_place section.now name.now) }
{
    if holds {
        Some(place_of_field(section, name))
    } else {
        None
    }
}

// Whether two words stand side by side in the first field of a name.
fn push_unseparated(
    alloc: Global,
    found: &mut Vec<Finding>,
    section: &Section<'_>,
    name: &'static str,
) -> Result<(), AllocError>
    requires { section_end section.now < 2 ^ 64 }
    ensures { OnOk result (map found_of found.new.items ≡ map found_of found.old.items ++ unseparated section.now name.now) }
{
    let value = section.value(alloc, name.as_bytes())?;
    let holds = match &value {
        Some(value) => has_words_beside(value),
        None => false,
    };
    push_at(
        found,
        Fault::MissingSemicolon,
        name,
        place_when(section, name, holds),
    )
}

// What is wrong with the boundary that a section names.
fn push_boundary_faults(
    alloc: Global,
    found: &mut Vec<Finding>,
    section: &Section<'_>,
) -> Result<(), AllocError>
    requires { section_end section.now < 2 ^ 64 }
    ensures { OnOk result (map found_of found.new.items ≡ map found_of found.old.items ++ boundary_faults section.now) }
{
    let media = media_type(alloc, section)?;
    let place = place_when(section, CONTENT_TYPE, is_extended(&media));
    push_at(found, Fault::ExtendedBoundary, CONTENT_TYPE, place)?;
    let place = place_when(section, CONTENT_TYPE, lacks(&media));
    push_at(found, Fault::NoBoundary, CONTENT_TYPE, place)
}

// Whether a type has a boundary as RFC 2231 writes long parameters.
fn is_extended(media: &ContentType) -> bool
    ensures { result ≡ has_extended_boundary (media_type_of media.now) }
{
    media.param(b"boundary*").is_some()
        || media.param(b"boundary*0").is_some()
        || media.param(b"boundary*0*").is_some()
}

// Whether a type is a multipart without a boundary.
fn lacks(media: &ContentType) -> bool
    ensures { result ≡ lacks_boundary (media_type_of media.now) }
{
    let boundary = media.param(b"boundary").unwrap_or(b"");
    media.main.as_slice() == b"multipart".as_slice() && trimmed(boundary).is_empty()
}

// What is wrong with the parts of a multipart that ends at a place.
fn push_multi_faults(
    found: &mut Vec<Finding>,
    section: &Section<'_>,
    end: usize,
) -> Result<(), AllocError>
    requires { end ≡ section_end section.now }
    ensures { OnOk result (map found_of found.new.items ≡ map found_of found.old.items ++ multi_faults_by (kind_in section.now.entity) section.now) }
{
    match section.kind() {
        Kind::Multi => match last_end(section) {
            None => push_at(found, Fault::NoPart, "", Some(section.body_start())),
            Some(last) if last == end => push_at(found, Fault::NotClosed, "", Some(end)),
            Some(_) => Ok(()),
        },
        Kind::Leaf | Kind::Message => Ok(()),
    }
}

// Where the last section below another one ends.
fn last_end(section: &Section<'_>) -> Option<usize>
    ensures { result ≡ end_of_last None (children section.now) }
{
    let mut last = None;
    for below in section.children() {
        last = Some(below.end());
    }
    last
}

// What is found in the content of a section.
fn push_content_faults(
    alloc: Global,
    found: &mut Vec<Finding>,
    section: &Section<'_>,
) -> Result<(), AllocError>
    requires { section_end section.now < 2 ^ 64 }
    ensures { OnOk result ((content : List FoundFault) × AreContentFaults section.now content × (map found_of found.new.items ≡ map found_of found.old.items ++ content)) }
{
    match content_size(alloc, section) {
        Ok(_) => Ok(()),
        Err(ExtractError::UnknownEncoding) => {
            let place = Some(place_of_field(section, TRANSFER_ENCODING));
            push_at(found, Fault::UnknownEncoding, TRANSFER_ENCODING, place)
        }
        Err(ExtractError::BadBase64) => {
            push_at(found, Fault::BadBase64, "", Some(section.body_start()))
        }
        Err(ExtractError::NoSuchSection | ExtractError::Memory) => Err(AllocError),
    }
}
