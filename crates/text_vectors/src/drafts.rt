//! The calls of `registration` (RFC 9176 sections 5 and 5.3.1). A registration is `PEER?OPTIONS
//! BODY`: its peer, its parameters and its links.
//!
//! - `build REGISTRATION`: its draft, or the fault of its body;
//! - `weight NUMBER REGISTRATION`;
//! - `rebased update?OPTIONS REGISTRATION`: its links resolved against the base of the update, and
//!   those resolved again against their own base.
ghost use Rattle.std.specs.Prelude.{◌≡◌, true, IfSome};
ghost use Rattle.std.specs.List.{list_all};
ghost use Rattle.record_model.specs.Parameters.{is_base};
ghost use Rattle.registration.specs.Drafts.{has_references};

use crate::pages::{
    begin, put_fault, put_items, put_named, put_number, put_optional, put_pairs, text_in,
};
use crate::queries::{note_bad, params_of};
use crate::requests::Request;
use query_text::update_params;
use rd_base::{Starved, Text, UpdateParams, peer_read};
use registration::{Draft, DraftFault, build, rebased, weight};
use vector_words::{Line, NoAnswer};

/// Writes the fault of the body of a registration.
fn put_draft_fault(line: &mut Line<'_>, fault: DraftFault) {
    match fault {
        DraftFault::Links(at) => put_fault(line, "links", at),
        DraftFault::Reference(at) => put_fault(line, "reference", at),
        DraftFault::Limited(link) => put_fault(line, "limited", link),
        DraftFault::Starved => line.note(NoAnswer::Starved),
    }
}

/// Reads a registration and returns its draft, or writes the fault of its body.
fn draft_of(line: &mut Line<'_>) -> Option<Draft>
    ensures references { IfSome result (λ draft. list_all has_references draft.items ≡ true) }
    ensures base { IfSome result (λ draft. is_base draft.base ≡ true) }
{
    let word = line.word();
    let request = Request::of(line, word);
    let params = params_of(line, &request)?;
    let body = line.octets(line.said);
    let Ok(peer) = peer_read(request.path) else {
        line.refuse();
        return None;
    };
    match build(line.alloc, params, peer, body.as_slice()) {
        Ok(draft) => Some(draft),
        Err(fault) => {
            put_draft_fault(line, fault);
            None
        }
    }
}

/// Writes a draft, and whether its base was given.
fn put_draft(line: &mut Line<'_>, draft: &Draft) {
    put_named(line, "ep", draft.name.ep.as_str());
    put_optional(line, "d", text_in(&draft.name.sector));
    put_number(line, "lt", u64::from(draft.lt));
    put_named(line, "base", draft.base.as_str());
    line.put(if draft.base_given {
        " given"
    } else {
        " of the peer"
    });
    put_pairs(line, draft.attrs.as_slice());
    put_items(line, draft.items.links());
}

/// Writes the draft of a registration, or the fault of its body.
pub(crate) fn put_built(line: &mut Line<'_>) {
    if let Some(draft) = draft_of(line) {
        put_draft(line, &draft);
    }
}

/// Writes the weight of the draft of a registration with this number.
pub(crate) fn put_weight(line: &mut Line<'_>) {
    let number = line.number(u64::MAX);
    match draft_of(line) {
        Some(draft) => line.put_number(weight(&draft, number)),
        None => line.refuse(),
    }
}

/// Reads the base that an update gives, if it gives one.
fn base_of(line: &mut Line<'_>) -> Option<Text>
    ensures { IfSome result (λ base. is_base base ≡ true) }
{
    let word = line.word();
    let request = Request::of(line, word);
    match update_params(line.alloc, request.queries()) {
        Ok(UpdateParams { base, .. }) => base,
        Err(bad) => {
            note_bad(line, bad);
            None
        }
    }
}

/// Writes the links of a registration resolved against the base of an update, and those resolved
/// again against their own base.
pub(crate) fn put_rebased(line: &mut Line<'_>) -> Result<(), Starved> {
    let base = base_of(line);
    let draft = draft_of(line);
    if let Some(base) = base {
        if let Some(draft) = draft {
            let items = rebased(line.alloc, &draft.items, &base)?;
            put_items(line, items.links());
            begin(line);
            line.put("back");
            let items = rebased(line.alloc, &items, &draft.base)?;
            put_items(line, items.links());
            return Ok(());
        }
    }
    line.refuse();
    Ok(())
}
