use crate::ids::{ClientId, LocalView, Number, SiteId, View};
use crate::value::{Update, Value};
use st_fields::{Bytes, Copied, Same, Seq, WordsError};
use std::alloc::Global;

/// What a server knows of one number: the value that stood there in this view and local view.
#[derive(Drop)]
pub struct Item {
    pub number: Number,
    pub view: View,
    pub local: LocalView,
    pub value: Value,
}

/// A list of items.
pub type Items = Seq<Item>;

/// A list of statements.
pub type Statements = Seq<Statement>;

/// What a party seals.
#[derive(Drop)]
pub enum Statement {
    /// The leader site's representative, or a server that follows it, gives a number this value.
    Prepare {
        site: SiteId,
        view: View,
        local: LocalView,
        number: Number,
        value: Value,
    },
    /// A server of the leader site saw a quorum of Prepares.
    Proposal {
        site: SiteId,
        view: View,
        local: LocalView,
        number: Number,
        value: Value,
    },
    /// A server saw the leader site's Proposal.
    Accept {
        site: SiteId,
        view: View,
        number: Number,
        value: Value,
    },
    /// A server asks for this local view of its site.
    LocalVc {
        site: SiteId,
        local: LocalView,
    },
    /// A server asks for this view.
    GlobalVc {
        site: SiteId,
        view: View,
    },
    /// What a server had prepared when it entered the local view.
    LocalReport {
        site: SiteId,
        local: LocalView,
        index: u8,
        view: View,
        base: u32,
        items: Items,
    },
    /// What a server had accepted when it entered the view.
    GlobalReport {
        site: SiteId,
        view: View,
        index: u8,
        base: u32,
        items: Items,
    },
    /// The union of a quorum of LocalReports.
    LocalUnion {
        site: SiteId,
        local: LocalView,
        greatest: View,
        base: u32,
        items: Items,
    },
    /// The union of a quorum of GlobalReports.
    GlobalUnion {
        site: SiteId,
        view: View,
        base: u32,
        items: Items,
    },
    /// A server executed the client's update of this time at this number, with this result.
    Reply {
        site: SiteId,
        client: ClientId,
        time: u32,
        number: Number,
        result: Bytes,
    },
    /// A client asks for this update.
    ClientUpdate {
        update: Update,
    },
}

impl Copied for Item {
    fn copy(&self, alloc: Global) -> Result<Item, WordsError> {
        Ok(Item {
            number: self.number,
            view: self.view,
            local: self.local,
            value: self.value.copy(alloc)?,
        })
    }
}

impl Same for Item {
    fn same(&self, other: &Item) -> bool {
        self.number == other.number
            && self.view == other.view
            && self.local == other.local
            && self.value.same(&other.value)
    }
}

impl Copied for Statement {
    fn copy(&self, alloc: Global) -> Result<Statement, WordsError> {
        match self {
            Statement::Prepare {
                site,
                view,
                local,
                number,
                value,
            } => Ok(Statement::Prepare {
                site: *site,
                view: *view,
                local: *local,
                number: *number,
                value: value.copy(alloc)?,
            }),
            Statement::Proposal {
                site,
                view,
                local,
                number,
                value,
            } => Ok(Statement::Proposal {
                site: *site,
                view: *view,
                local: *local,
                number: *number,
                value: value.copy(alloc)?,
            }),
            Statement::Accept {
                site,
                view,
                number,
                value,
            } => Ok(Statement::Accept {
                site: *site,
                view: *view,
                number: *number,
                value: value.copy(alloc)?,
            }),
            Statement::LocalVc { site, local } => Ok(Statement::LocalVc {
                site: *site,
                local: *local,
            }),
            Statement::GlobalVc { site, view } => Ok(Statement::GlobalVc {
                site: *site,
                view: *view,
            }),
            Statement::LocalReport {
                site,
                local,
                index,
                view,
                base,
                items,
            } => Ok(Statement::LocalReport {
                site: *site,
                local: *local,
                index: *index,
                view: *view,
                base: *base,
                items: items.copy(alloc)?,
            }),
            Statement::GlobalReport {
                site,
                view,
                index,
                base,
                items,
            } => Ok(Statement::GlobalReport {
                site: *site,
                view: *view,
                index: *index,
                base: *base,
                items: items.copy(alloc)?,
            }),
            Statement::LocalUnion {
                site,
                local,
                greatest,
                base,
                items,
            } => Ok(Statement::LocalUnion {
                site: *site,
                local: *local,
                greatest: *greatest,
                base: *base,
                items: items.copy(alloc)?,
            }),
            Statement::GlobalUnion {
                site,
                view,
                base,
                items,
            } => Ok(Statement::GlobalUnion {
                site: *site,
                view: *view,
                base: *base,
                items: items.copy(alloc)?,
            }),
            Statement::Reply {
                site,
                client,
                time,
                number,
                result,
            } => Ok(Statement::Reply {
                site: *site,
                client: *client,
                time: *time,
                number: *number,
                result: result.copy(alloc)?,
            }),
            Statement::ClientUpdate { update } => Ok(Statement::ClientUpdate {
                update: update.copy(alloc)?,
            }),
        }
    }
}

impl Same for Statement {
    fn same(&self, other: &Statement) -> bool {
        match (self, other) {
            (
                Statement::Prepare {
                    site: s,
                    view: g,
                    local: l,
                    number: n,
                    value: v,
                },
                Statement::Prepare {
                    site,
                    view,
                    local,
                    number,
                    value,
                },
            ) => s == site && g == view && l == local && n == number && v.same(value),
            (
                Statement::Proposal {
                    site: s,
                    view: g,
                    local: l,
                    number: n,
                    value: v,
                },
                Statement::Proposal {
                    site,
                    view,
                    local,
                    number,
                    value,
                },
            ) => s == site && g == view && l == local && n == number && v.same(value),
            (
                Statement::Accept {
                    site: s,
                    view: g,
                    number: n,
                    value: v,
                },
                Statement::Accept {
                    site,
                    view,
                    number,
                    value,
                },
            ) => s == site && g == view && n == number && v.same(value),
            (Statement::LocalVc { site: s, local: l }, Statement::LocalVc { site, local }) => {
                s == site && l == local
            }
            (Statement::GlobalVc { site: s, view: g }, Statement::GlobalVc { site, view }) => {
                s == site && g == view
            }
            (
                Statement::LocalReport {
                    site: s,
                    local: l,
                    index: i,
                    view: g,
                    base: b,
                    items: t,
                },
                Statement::LocalReport {
                    site,
                    local,
                    index,
                    view,
                    base,
                    items,
                },
            ) => s == site && l == local && i == index && g == view && b == base && t.same(items),
            (
                Statement::GlobalReport {
                    site: s,
                    view: g,
                    index: i,
                    base: b,
                    items: t,
                },
                Statement::GlobalReport {
                    site,
                    view,
                    index,
                    base,
                    items,
                },
            ) => s == site && g == view && i == index && b == base && t.same(items),
            (
                Statement::LocalUnion {
                    site: s,
                    local: l,
                    greatest: g,
                    base: b,
                    items: t,
                },
                Statement::LocalUnion {
                    site,
                    local,
                    greatest,
                    base,
                    items,
                },
            ) => s == site && l == local && g == greatest && b == base && t.same(items),
            (
                Statement::GlobalUnion {
                    site: s,
                    view: g,
                    base: b,
                    items: t,
                },
                Statement::GlobalUnion {
                    site,
                    view,
                    base,
                    items,
                },
            ) => s == site && g == view && b == base && t.same(items),
            (
                Statement::Reply {
                    site: s,
                    client: c,
                    time: t,
                    number: n,
                    result: r,
                },
                Statement::Reply {
                    site,
                    client,
                    time,
                    number,
                    result,
                },
            ) => s == site && c == client && t == time && n == number && r.same(result),
            (Statement::ClientUpdate { update: u }, Statement::ClientUpdate { update }) => {
                u.same(update)
            }
            _ => false,
        }
    }
}
