//! Lists that become databases and catalogs, through ports in memory.
//! What is expected was made by an independent program.

ghost use Rattle.std.specs.Prelude.{None};
ghost use Rattle.list_builds.specs.Order.{IsOrder};

use list_builds::{BuildFault, BuildOrder, Built, Values, build_list};
use list_keys::LineFault;
use pir_ports::{MemPorts, Port};
use std::alloc::{AllocError, Global};

const COINS: &[u8] = b"\x00\x01\x02\x03\x04\x05\x06\x07\x08\x09\x0a\x0b\x0c\x0d\x0e\x0f and more";

/// Three keys, the two rows of their table, and its catalog.
const KEYS: &[u8] = b"alpha\nbeta\ngamma\n";

const ROWS_OF_KEYS: &[u8] =
    b"\x57\xc8\x3c\xd2\x9f\x54\x2f\xea\x00\x01\x7e\xb2\xf2\x77\xbd\xd6\x01\x72\
\x00\x00\x00\x00\x00\x00\x00\x00\
\x57\xc8\x3c\xd2\x9f\x54\x2f\xea\x00\x02\xa6\xcb\xea\x7e\xc4\x12\xd1\x37\xad\x45\xbe\x30\x0d\x8d\x97\xd6";

const CATALOG_OF_KEYS: &[u8] =
    b"digest = 8\nentries = 3\nformat = 1\nlist = \"57c83cd29f542fea\"\nrows = 2\n\
salt = \"000102030405060708090a0b0c0d0e0f\"\n\
sha256 = \"2333a754a274d15cac819a27a4f2ac88bcfbcd2ad954c0f4bb8e0bec6150ce6b\"\nvalue = 0\nwidth = 26\n";

/// The same keys with values, and their table's rows with an entry, and without one.
const VALUES: &[u8] = b"alpha\tone\nbeta\t\ngamma\tthree";

const ROW_OF_ONE: &[u8] =
    b"\x73\xf1\xe1\x4a\xbd\xbe\xd3\x22\x00\x01\x7e\xb2\xf2\x77\xbd\xd6\x01\x72\
\0\0\0\0\0\0\0\0\0\0\0\0\0\0\0\0\0\0\0\0\0\0";

const ROW_OF_TWO: &[u8] =
    b"\x73\xf1\xe1\x4a\xbd\xbe\xd3\x22\x00\x02\xa6\xcb\xea\x7e\xc4\x12\xd1\x37\x00\x03one\0\0\
\xad\x45\xbe\x30\x0d\x8d\x97\xd6\x00\x05three";

const EMPTY_ROW: &[u8] =
    b"\x73\xf1\xe1\x4a\xbd\xbe\xd3\x22\0\0\0\0\0\0\0\0\0\0\0\0\0\0\0\0\0\0\0\0\0\0\0\0\0\0\0\0\0\0\0\0";

const CATALOG_OF_VALUES: &[u8] =
    b"digest = 8\nentries = 3\nformat = 1\nlist = \"73f1e14abdbed322\"\nrows = 2\n\
salt = \"000102030405060708090a0b0c0d0e0f\"\n\
sha256 = \"9a1690a89b1cec9e64265cbcdbebd708ea926ed632a249c7082466300ce1e6ea\"\nvalue = 5\nwidth = 40\n";

/// An order with digests of eight bytes.
fn order_of<'a>(values: Values, rows: Option<u32>, catalog: Option<&'a str>) -> BuildOrder<'a>
    requires { IsOrder 8 values rows }
{
    BuildOrder {
        digest: 8,
        values,
        rows,
        keys: "keys",
        coins: "coins",
        database: "database",
        catalog,
    }
}

/// Ports whose Input holds a list and whose Coins holds the salt, with room for what is written.
/// The call with the number `fail` fails.
fn holding(alloc: Global, list: &[u8], fail: u8) -> Result<MemPorts, AllocError> {
    let mut ports = MemPorts::new(alloc, 1000, &[u64::from(fail)], 4, 40)?;
    ports.put(alloc, Port::Coins, COINS)?;
    ports.put(alloc, Port::Input, list)?;
    ports.room(alloc, Port::Record, 200)?;
    ports.room(alloc, Port::Output, 400)?;
    ports.room(alloc, Port::Share(1), 400)?;
    Ok(ports)
}

/// Whether the bytes are these rows, one behind another.
fn are_rows(bytes: &[u8], rows: &[&[u8]]) -> bool {
    let mut rest = bytes;
    for row in rows {
        match rest.strip_prefix(*row) {
            Some(more) => rest = more,
            None => return false,
        }
    }
    rest.is_empty()
}

/// Whether a list becomes a database of these rows, with this catalog at the port.
fn becomes(
    alloc: Global,
    list: &[u8],
    order: &BuildOrder,
    rows: &[&[u8]],
    port: Port,
    catalog: &[u8],
) -> Result<bool, AllocError> {
    let mut ports = holding(alloc, list, 0)?;
    let built = build_list(alloc, &mut ports, order);
    Ok(built.is_ok() && are_rows(ports.seen(Port::Record), rows) && ports.seen(port) == catalog)
}

#[test]
fn keys_become_a_table(rt: HostRuntime) -> Result<(), AllocError> {
    let order = order_of(Values::Absent, None, None);
    assert!(rt;
        becomes(
            rt.alloc(),
            KEYS,
            &order,
            &[ROWS_OF_KEYS],
            Port::Output,
            CATALOG_OF_KEYS
        )?
    );
    Ok(())
}

#[test]
fn values_become_a_table_and_a_catalog_of_its_own(rt: HostRuntime) -> Result<(), AllocError> {
    let order = order_of(Values::UpToLongest, None, Some("catalog"));
    let rows = [ROW_OF_ONE, ROW_OF_TWO];
    assert!(rt;
        becomes(
            rt.alloc(),
            VALUES,
            &order,
            &rows,
            Port::Share(1),
            CATALOG_OF_VALUES
        )?
    );
    Ok(())
}

/// What building a list with four rows comes to, of which the first line stands twice, and whether the rows are right.
fn with_four_rows(alloc: Global) -> Result<Result<(Built, bool), BuildFault>, AllocError> {
    let order = order_of(Values::UpToLongest, Some(4), None);
    let list = b"alpha\tone\nbeta\t\ngamma\tthree\nalpha\tone\n";
    let mut ports = holding(alloc, list, 0)?;
    let rows = [EMPTY_ROW, ROW_OF_ONE, ROW_OF_TWO, EMPTY_ROW];
    Ok(match build_list(alloc, &mut ports, &order) {
        Ok(built) => Ok((built, are_rows(ports.seen(Port::Record), &rows))),
        Err(fault) => Err(fault),
    })
}

#[test]
fn rows_that_are_asked_for(rt: HostRuntime) -> Result<(), AllocError> {
    let built = Built {
        entries: 3,
        rows: 4,
        width: 40,
        all_end_with_return: false,
    };
    assert!(rt; with_four_rows(rt.alloc())? == Ok((built, true)));
    Ok(())
}

/// Why a list isn't built, where no file to write is opened; the call with the number `fail` fails.
fn refusal(
    alloc: Global,
    list: &[u8],
    values: Values,
    fail: u8,
) -> Result<Option<BuildFault>, AllocError>
    requires { IsOrder 8 values None }
{
    let mut ports = holding(alloc, list, fail)?;
    let order = order_of(values, None, Some("catalog"));
    match build_list(alloc, &mut ports, &order) {
        Err(fault) if ports.opened_as(Port::Record, 0).is_none() => Ok(Some(fault)),
        _ => Ok(None),
    }
}

#[test]
fn lists_that_are_refused(rt: HostRuntime) -> Result<(), AllocError> {
    let empty = BuildFault::Refused {
        number: 2,
        fault: LineFault::EmptyKey,
    };
    let no_tab = BuildFault::Refused {
        number: 1,
        fault: LineFault::NoTab,
    };
    let clash = BuildFault::Clash {
        first: 1,
        second: 2,
    };
    for (list, values, fault) in [
        (b"alpha\n\nbeta\n".as_slice(), Values::Absent, empty),
        (b"alpha\n".as_slice(), Values::UpToLongest, no_tab),
        (
            b"alpha\tone\nalpha\ttwo\n".as_slice(),
            Values::UpToLongest,
            clash,
        ),
        (b"".as_slice(), Values::Absent, BuildFault::NoLine),
    ] {
        assert!(rt; refusal(rt.alloc(), list, values, 0)? == Some(fault));
    }
    Ok(())
}

#[test]
fn calls_that_fail_before_a_file_is_opened(rt: HostRuntime) -> Result<(), AllocError> {
    for (fail, fault) in [
        (1, BuildFault::CoinsFault),
        (2, BuildFault::CoinsFault),
        (3, BuildFault::KeysFault),
        (4, BuildFault::KeysFault),
        (5, BuildFault::KeysFault),
    ] {
        assert!(rt; refusal(rt.alloc(), KEYS, Values::Absent, fail)? == Some(fault));
    }
    Ok(())
}

/// Why the keys aren't built where the call with the number `fail` fails,
/// and how many bytes the database and the catalog have.
fn cut_at(alloc: Global, fail: u8) -> Result<(Option<BuildFault>, usize, usize), AllocError> {
    let mut ports = holding(alloc, KEYS, fail)?;
    let fault = build_list(alloc, &mut ports, &order_of(Values::Absent, None, None)).err();
    Ok((
        fault,
        ports.seen(Port::Record).len(),
        ports.seen(Port::Output).len(),
    ))
}

#[test]
fn the_catalog_is_written_behind_a_whole_table(rt: HostRuntime) -> Result<(), AllocError> {
    for (fail, fault, bytes) in [
        (6, BuildFault::DatabaseFault, 0),
        (7, BuildFault::DatabaseFault, 0),
        (8, BuildFault::DatabaseFault, 26),
        (9, BuildFault::CatalogFault, 52),
    ] {
        assert!(rt; cut_at(rt.alloc(), fail)? == (Some(fault), bytes, 0));
    }
    Ok(())
}
