//! The worked catalog, which was made by an independent program, and what is refused of it.

use list_catalog::{
    CatalogFault, Member, Servers, ServersFault, read_catalog, with_options, write_catalog,
};
use std::alloc::{AllocError, Global};
use std::test::Fail;

/// The catalog of `alpha`, `beta` and `gamma`, with digests of 8 bytes.
const WORKED: &str = "digest = 8
entries = 3
format = 1
list = \"57c83cd29f542fea\"
rows = 2
salt = \"000102030405060708090a0b0c0d0e0f\"
sha256 = \"2333a754a274d15cac819a27a4f2ac88bcfbcd2ad954c0f4bb8e0bec6150ce6b\"
value = 0
width = 26
";

/// The table of four servers behind it.
const SERVERS: &str = "
[servers]
addresses = [\"127.0.0.1:7011\", \"127.0.0.1:7012\", \"127.0.0.1:7013\", \"127.0.0.1:7014\"]
agree = 3
degree = 1
";

/// The same, spelled in another way.
const SPELLED: &str = "# our list
servers = { degree = 1, agree = 3, addresses = [
    \"127.0.0.1:7011\", '127.0.0.1:7012', # two of them
    \"127.0.0.1:7013\", \"127.0.0.1:7014\" ] }
width = 0x1a
value = 0
sha256 = \"2333A754A274D15CAC819A27A4F2AC88BCFBCD2AD954C0F4BB8E0BEC6150CE6B\"
salt = '000102030405060708090A0B0C0D0E0F'
rows = 2
list = \"57C83cd29f542fea\"
format = 1
entries = 3
digest = 8";

/// What is replaced in the worked catalog with its servers, and what is said then.
const FAULTS: [(&str, &str, &str); 33] = [
    (
        "digest = 8",
        "digest = 7",
        "catalog: digest 7 is not among 8 to 32",
    ),
    (
        "digest = 8",
        "digest = 33",
        "catalog: digest 33 is not among 8 to 32",
    ),
    (
        "digest = 8",
        "digest = 8.0",
        "catalog: digest is not a whole number",
    ),
    ("digest = 8\n", "", "catalog: digest is missing"),
    (
        "entries = 3",
        "entries = 0",
        "catalog: entries 0 is not among 1 to 67108864",
    ),
    (
        "entries = 3",
        "entries = 5",
        "catalog: entries 5 are more than the rows have room for, 4",
    ),
    ("format = 1", "format = 2", "catalog: format 2 is not 1"),
    (
        "57c83c",
        "57c83",
        "catalog: list is not 16 hexadecimal digits",
    ),
    (
        "57c83c",
        "57c83g",
        "catalog: list is not 16 hexadecimal digits",
    ),
    (
        "rows = 2",
        "rows = -1",
        "catalog: rows -1 is not among 1 to 1048576",
    ),
    (
        "rows = 2",
        "rows = 1048577",
        "catalog: rows 1048577 is not among 1 to 1048576",
    ),
    (
        "salt = \"0001",
        "salt = \"01",
        "catalog: salt is not 32 hexadecimal digits",
    ),
    (
        "sha256 = \"2333",
        "sha256 = \"",
        "catalog: sha256 is not 64 hexadecimal digits",
    ),
    ("salt", "salty", "catalog: an unknown member salty"),
    (
        "value = 0",
        "value = 16385",
        "catalog: value 16385 is not among 0 to 16384",
    ),
    (
        "value = 0",
        "value = 9",
        "catalog: width 26 is below 29, the bytes of a row with one entry",
    ),
    (
        "width = 26",
        "width = 17",
        "catalog: width 17 is below 18, the bytes of a row with one entry",
    ),
    (
        "width = 26",
        "width = 65537",
        "catalog: width 65537 is not among 1 to 65536",
    ),
    (
        "rows = 2",
        "rows = 1048576\ncolour = 3",
        "catalog: an unknown member colour",
    ),
    ("width = 26\n", "", "catalog: width is missing"),
    (
        "width = 26",
        "width 26",
        "catalog: not TOML (line 9: key with no value, expected `=`)",
    ),
    (
        "[servers]",
        "[[servers]]",
        "catalog: servers is not a table",
    ),
    (
        "agree = 3",
        "agree = 3\nkeys = 1",
        "catalog: an unknown member keys",
    ),
    (
        "agree = 3",
        "agree = 1",
        "catalog: agree 1 is not above degree 1",
    ),
    (
        "agree = 3",
        "agree = 5",
        "catalog: agree 5 is above 4, the number of addresses",
    ),
    (
        "agree = 3",
        "agree = 256",
        "catalog: agree 256 is not among 1 to 255",
    ),
    ("agree = 3\n", "", "catalog: agree is missing"),
    ("degree = 1\n", "", "catalog: degree is missing"),
    (
        "degree = 1\n",
        "degree = 0\n",
        "catalog: degree 0 is not among 1 to 254",
    ),
    ("addresses", "#", "catalog: addresses is missing"),
    ("127.0.0.1:7012", "", "catalog: address 2 is empty"),
    (
        "\"127.0.0.1:7012\"",
        "7012",
        "catalog: addresses is not a list of texts",
    ),
    (
        "[\"127.0.0.1:7011\", \"127.0.0.1:7012\", \"127.0.0.1:7013\", ",
        "[",
        "catalog: addresses: 1 of them, and not among 2 to 255",
    ),
];

/// The worked catalog with its servers.
fn whole(alloc: Global) -> Result<String, AllocError> {
    format!(in alloc; "{WORKED}{SERVERS}")
}

/// A text with the first `old` replaced by `new`.
fn replaced(alloc: Global, text: &str, old: &str, new: &str) -> Result<String, AllocError> {
    match text.split_once(old) {
        Some((before, behind)) => format!(in alloc; "{before}{new}{behind}"),
        None => String::from_str(alloc, "nothing to replace"),
    }
}

/// The sentence of the fault that a text has as a catalog.
fn refusal(alloc: Global, text: &str) -> Result<String, AllocError> {
    match read_catalog(alloc, text.as_bytes()) {
        Ok(_) => String::from_str(alloc, "taken"),
        Err(fault) => format!(in alloc; "{fault}"),
    }
}

/// What is written for the catalog that is read of a text.
fn again(alloc: Global, text: &str) -> Option<String> {
    let catalog = read_catalog(alloc, text.as_bytes()).ok()?;
    write_catalog(alloc, &catalog).ok()
}

/// Whether that is the text itself.
fn stays(alloc: Global, text: &str) -> bool {
    match again(alloc, text) {
        Some(written) => written.as_str() == text,
        None => false,
    }
}

#[test]
fn worked_catalog_is_read(rt: HostRuntime) -> Result<(), Fail> {
    let catalog = read_catalog(rt.alloc(), WORKED.as_bytes())?;
    assert!(rt; catalog.digest == 8 && catalog.entries == 3 && catalog.rows == 2);
    assert!(rt; catalog.value == 0 && catalog.width == 26 && catalog.servers.is_none());
    assert!(rt; catalog.tag == [0x57, 0xc8, 0x3c, 0xd2, 0x9f, 0x54, 0x2f, 0xea]);
    assert!(rt; catalog.salt == [0, 1, 2, 3, 4, 5, 6, 7, 8, 9, 10, 11, 12, 13, 14, 15]);
    Ok(())
}

#[test]
fn what_was_read_is_written_so(rt: HostRuntime) -> Result<(), Fail> {
    let alloc = rt.alloc();
    assert!(rt; stays(alloc, WORKED));
    assert!(rt; stays(alloc, whole(alloc)?.as_str()));
    Ok(())
}

#[test]
fn other_spellings_are_read_as_the_same(rt: HostRuntime) -> Result<(), Fail> {
    let alloc = rt.alloc();
    assert!(rt; again(alloc, SPELLED).ok_or("read")?.as_str() == whole(alloc)?.as_str());
    Ok(())
}

#[test]
fn each_fault_has_its_sentence(rt: HostRuntime) -> Result<(), Fail> {
    let alloc = rt.alloc();
    let whole = whole(alloc)?;
    for (old, new, sentence) in FAULTS {
        let text = replaced(alloc, whole.as_str(), old, new)?;
        let said = refusal(alloc, text.as_str())?;
        assert!(rt; said.as_str() == sentence, "{said}");
    }
    Ok(())
}

/// What is said of so many rows of 65536 bytes.
fn wide(alloc: Global, rows: &str) -> Result<String, AllocError> {
    let text = replaced(alloc, WORKED, "rows = 2", rows)?;
    let text = replaced(alloc, text.as_str(), "width = 26", "width = 65536")?;
    refusal(alloc, text.as_str())
}

#[test]
fn rows_are_no_more_than_a_database(rt: HostRuntime) -> Result<(), Fail> {
    let alloc = rt.alloc();
    assert!(rt; wide(alloc, "rows = 16384")?.as_str() == "taken");
    let said = "catalog: rows 16385 of width 65536 have more than 1073741824 bytes";
    assert!(rt; wide(alloc, "rows = 16385")?.as_str() == said);
    Ok(())
}

#[test]
fn bytes_that_are_no_text_are_refused(rt: HostRuntime) -> Result<(), Fail> {
    let alloc = rt.alloc();
    assert!(rt; matches!(read_catalog(alloc, &[0xff]), Err(CatalogFault::NotText)));
    let long = vec![in alloc; b'#'; 65537]?;
    assert!(rt; matches!(read_catalog(alloc, &long), Err(CatalogFault::TooLong)));
    Ok(())
}

/// Servers at the addresses `a`, `b` and `c`.
fn three(alloc: Global) -> Result<Vec<String>, AllocError> {
    let mut addresses = Vec::new(alloc);
    for name in ["a", "b", "c"] {
        addresses.push(String::from_str(alloc, name)?)?;
    }
    Ok(addresses)
}

#[test]
fn options_take_the_place_of_members(rt: HostRuntime) -> Result<(), Fail> {
    let alloc = rt.alloc();
    let own = Servers::new(three(alloc)?, 1, 2)?;
    let servers = with_options(Some(own), None, Some(2), Some(3))?;
    assert!(rt; servers.degree() == 2 && servers.agree() == 3 && servers.addresses().len() == 3);
    assert!(rt;
        with_options(None, Some(three(alloc)?), Some(1), None).err()
            == Some(ServersFault::Missing(Member::Agree))
    );
    Ok(())
}
