//! The bytes of reports, whose fields may be bounded by the reports before them.

ghost use Rattle.std.specs.Prelude.{◌≡◌};
ghost use Rattle.st_fields.specs.Reading.{Gives};
ghost use Rattle.st_words.specs.Reading.{local_report_at, global_report_at, report_at};

use crate::codec::item::{MOST_BASE, limits_above, read_items};
use crate::ids::{LocalView, SiteId, View};
use crate::kind::StatementKind;
use crate::limits::ReportBounds;
use crate::statement::Statement;
use st_fields::{FieldError, Numbered, read_above, read_byte, read_byte_in, read_u32, read_u32_in};
use std::alloc::Global;

#[tactic(auto, unfolding(crate::specs::Reading::local_report_at))]
pub fn read_local_report<'a>(
    alloc: Global,
    bounds: &ReportBounds,
    bytes: &'a [u8],
) -> Result<(Statement, &'a [u8]), FieldError>
    ensures { Gives (λ x. (x.0, x.1.now)) result (local_report_at bounds.now bytes.now) }
{
    let (site, rest) = read_byte_in(bytes, u16::from(bounds.least_site), bounds.most_site)?;
    let (local, rest) = read_above(rest, bounds.after_view, bounds.most_view)?;
    let (index, rest) = read_byte_in(rest, bounds.least_index, u8::MAX)?;
    let (view, rest) = read_u32(rest)?;
    let (base, rest) = read_u32_in(rest, 0, MOST_BASE)?;
    let (items, rest) = read_items(alloc, limits_above(base, view, Some(local - 1)), rest)?;
    let report = Statement::LocalReport {
        site: SiteId(site),
        local: LocalView(local),
        index,
        view: View(view),
        base,
        items,
    };
    Ok((report, rest))
}

#[tactic(auto, unfolding(crate::specs::Reading::global_report_at))]
pub fn read_global_report<'a>(
    alloc: Global,
    bounds: &ReportBounds,
    bytes: &'a [u8],
) -> Result<(Statement, &'a [u8]), FieldError>
    ensures { Gives (λ x. (x.0, x.1.now)) result (global_report_at bounds.now bytes.now) }
{
    let (site, rest) = read_byte_in(bytes, u16::from(bounds.least_site), bounds.most_site)?;
    let (view, rest) = read_above(rest, bounds.after_view, bounds.most_view)?;
    let (index, rest) = read_byte_in(rest, bounds.least_index, u8::MAX)?;
    let (base, rest) = read_u32_in(rest, 0, MOST_BASE)?;
    let (items, rest) = read_items(alloc, limits_above(base, view - 1, None), rest)?;
    let report = Statement::GlobalReport {
        site: SiteId(site),
        view: View(view),
        index,
        base,
        items,
    };
    Ok((report, rest))
}

/// The core of a report within the bounds.
#[tactic(auto, unfolding(crate::specs::Reading::report_at))]
pub fn read_report<'a>(
    alloc: Global,
    bounds: &ReportBounds,
    bytes: &'a [u8],
) -> Result<(Statement, &'a [u8]), FieldError>
    ensures { Gives (λ x. (x.0, x.1.now)) result (report_at bounds.now bytes.now) }
{
    let (kind, rest) = read_byte(bytes)?;
    if bounds.local && kind == StatementKind::LocalReport.number() {
        read_local_report(alloc, bounds, rest)
    } else if bounds.global && kind == StatementKind::GlobalReport.number() {
        read_global_report(alloc, bounds, rest)
    } else {
        Err(FieldError::Refused { left: bytes.len() })
    }
}
