//! The table of a list, as its catalog says.

ghost use Rattle.std.specs.Prelude.{◌≡◌, length};
ghost use Rattle.wire_frames.specs.declared.scheme.TheConstants.{SHAMIR};
ghost use Rattle.query_rounds.specs.Plan.{IsPlan};
ghost use Rattle.list_catalog.specs.Serving.{CanServe};
ghost use Rattle.list_tool.specs.Asking.{IsListTable, plan_for, table_for};

use fetch_client::FetchPlan;
use list_catalog::{Catalog, Servers};
use list_finds::KnownList;
use wire_frames::SHAMIR;

/// The table of a list: what is known of the list, and how many rows there are of how many bytes.
#[derive(Clone, Copy, Debug, PartialEq, Eq)]
pub(crate) struct ListTable {
    pub(crate) list: KnownList,
    pub(crate) rows: u32,
    pub(crate) width: u32,
}

/// The table that a catalog is of.
pub(crate) fn table_of(catalog: &Catalog) -> ListTable
    ensures is { result ≡ table_for catalog.now }
    ensures table { IsListTable result }
{
    ListTable {
        list: KnownList {
            salt: catalog.salt,
            tag: catalog.tag,
            size: catalog.digest,
            most: catalog.value,
        },
        rows: catalog.rows,
        width: catalog.width,
    }
}

/// How many servers there are.
fn count_of(servers: &Servers) -> u8
    ensures count { result ≡ length servers.now.addresses }
    ensures rules { CanServe servers.now.addresses servers.now.degree servers.now.agree }
{
    servers.addresses().len() as u8
}

/// How rows of a table are fetched from servers, in Shamir's sharing (Goldberg 2007).
pub(crate) fn plan_of(table: &ListTable, servers: &Servers) -> FetchPlan
    requires { IsListTable table.now }
    ensures is { result ≡ plan_for table.now servers.now }
    ensures plan { IsPlan result }
    ensures shamir { result.scheme ≡ SHAMIR }
{
    FetchPlan {
        scheme: SHAMIR,
        t: servers.degree(),
        tau: 0,
        h: servers.agree(),
        n: count_of(servers),
        r: table.rows,
        s: table.width,
    }
}
