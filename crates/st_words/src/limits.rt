//! What may stand in a list of items, and in a list of reports.

ghost use Rattle.std.specs.Prelude.{◌≡◌};

use crate::statement::Statement;

/// What the next item of a list may be.
#[derive(Clone, Copy, Debug, PartialEq, Eq)]
pub struct ItemLimits {
    /// Its number is above this.
    pub after: u32,
    /// Its number is at most this.
    pub most: u32,
    /// Its view is at most this.
    pub most_view: u32,
    /// Its local view is at most this, where it has a limit.
    pub most_local: Option<u32>,
}

/// Which report may stand here. In a list of reports the first one narrows it.
#[derive(Clone, Copy, Debug, PartialEq, Eq)]
pub struct ReportBounds {
    /// Whether it may be a LocalReport.
    pub local: bool,
    /// Whether it may be a GlobalReport.
    pub global: bool,
    pub least_site: u8,
    pub most_site: u8,
    /// The local view, or the view, that was entered is above this.
    pub after_view: u32,
    pub most_view: u32,
    /// 256 where no index is left.
    pub least_index: u16,
}

impl ReportBounds {
    ghost use Rattle.st_words.specs.Ranges.{after_report};
    ghost use Rattle.st_words.specs.Reading.{any_report};

    /// Every report.
    pub fn any() -> ReportBounds
        ensures { result ≡ any_report }
    {
        ReportBounds {
            local: true,
            global: true,
            least_site: 0,
            most_site: u8::MAX,
            after_view: 0,
            most_view: u32::MAX,
            least_index: 0,
        }
    }

    /// What may stand behind this report in one list: a report of its kind, its site and its view,
    /// with a greater index. Another statement changes nothing.
    pub fn after(self, report: &Statement) -> ReportBounds
        ensures { result ≡ after_report self report.now }
    {
        match report {
            Statement::LocalReport {
                site,
                local,
                index,
                ..
            } => ReportBounds {
                local: true,
                global: false,
                least_site: site.0,
                most_site: site.0,
                after_view: local.0.saturating_sub(1),
                most_view: local.0,
                least_index: u16::from(*index) + 1,
            },
            Statement::GlobalReport {
                site,
                view,
                index,
                ..
            } => ReportBounds {
                local: false,
                global: true,
                least_site: site.0,
                most_site: site.0,
                after_view: view.0.saturating_sub(1),
                most_view: view.0,
                least_index: u16::from(*index) + 1,
            },
            _ => self,
        }
    }
}
