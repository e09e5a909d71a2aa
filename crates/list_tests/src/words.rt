//! The words of `pir_list`.
use list_words::{Asked, Build, addresses, read_words};
use std::alloc::{AllocError, Global};

/// The words between blanks.
fn split(alloc: Global, line: &str) -> Result<Vec<String>, AllocError> {
    let mut words = Vec::new(alloc);
    for word in line.split_ascii_whitespace() {
        words.push(String::from_str(alloc, word)?)?;
    }
    Ok(words)
}

/// Whether these are the numbers of `build`, and whether lines have values.
fn has_numbers(
    build: &Build,
    values: bool,
    value_bytes: Option<usize>,
    digest: usize,
    rows: Option<u32>,
) -> bool {
    build.values == values
        && build.value_bytes == value_bytes
        && build.digest_bytes == digest
        && build.rows == rows
}

/// Whether these are the files of `build`.
fn has_files(build: &Build, keys: &str, catalog: Option<&str>, coins: &str) -> bool {
    build.keys == keys
        && build.database == "table"
        && build.catalog == catalog
        && build.coins == coins
}

/// Whether the words make a table of standard input in the usual way.
fn is_usual(alloc: Global) -> Result<bool, AllocError> {
    let words = split(alloc, "build - --database table")?;
    match read_words(alloc, &words) {
        Ok(Asked::Build(build)) => Ok(
            has_numbers(&build, false, None, 16, None)
                && has_files(&build, "-", None, "/dev/urandom"),
        ),
        _ => Ok(false),
    }
}

/// Whether words with all options have their values.
fn is_whole(alloc: Global) -> Result<bool, AllocError> {
    let words = split(
        alloc,
        "build keys --database table --catalog about --values --value-bytes 5 --digest-bytes 8 --rows 4 --coins salt",
    )?;
    match read_words(alloc, &words) {
        Ok(Asked::Build(build)) => Ok(
            has_numbers(&build, true, Some(5), 8, Some(4))
                && has_files(&build, "keys", Some("about"), "salt"),
        ),
        _ => Ok(false),
    }
}

#[test]
fn build_has_its_values(rt: HostRuntime) -> Result<(), AllocError> {
    assert!(rt; is_usual(rt.alloc())?);
    assert!(rt; is_whole(rt.alloc())?);
    Ok(())
}

/// Whether `find` has these values.
fn finds(
    alloc: Global,
    line: &str,
    keys: &str,
    degree: Option<u8>,
    agree: Option<u8>,
    hex: bool,
) -> Result<bool, AllocError> {
    let words = split(alloc, line)?;
    match read_words(alloc, &words) {
        Ok(Asked::Find(find)) => Ok(
            find.catalog == "list"
                && find.keys == keys
                && find.degree == degree
                && find.agree == agree
                && find.hex == hex,
        ),
        _ => Ok(false),
    }
}

#[test]
fn find_has_its_values(rt: HostRuntime) -> Result<(), AllocError> {
    let alloc = rt.alloc();
    assert!(rt; finds(alloc, "find list", "-", None, None, false)?);
    assert!(rt;
        finds(
            alloc,
            "find --hex list --degree=1 --keys mine --agree 3 --servers a:1,b:2 --coins c",
            "mine",
            Some(1),
            Some(3),
            true
        )?
    );
    Ok(())
}

/// Whether the addresses are these two.
fn are_two(alloc: Global) -> Result<bool, AllocError> {
    let list = addresses(alloc, "a:1,b:2")?;
    Ok(list.len() == 2 && list[0].as_str() == "a:1" && list[1].as_str() == "b:2")
}

/// Whether the words check a table.
fn checks(alloc: Global) -> Result<bool, AllocError> {
    let words = split(alloc, "check table list")?;
    match read_words(alloc, &words) {
        Ok(Asked::Check(check)) => Ok(check.database == "table" && check.catalog == "list"),
        _ => Ok(false),
    }
}

#[test]
fn check_has_its_values(rt: HostRuntime) -> Result<(), AllocError> {
    assert!(rt; checks(rt.alloc())?);
    assert!(rt; are_two(rt.alloc())?);
    Ok(())
}

/// Whether what is said of words begins so: the sentence of their fault, or help, or the version.
fn says(alloc: Global, line: &str, start: &str) -> Result<bool, AllocError> {
    let words = split(alloc, line)?;
    let text = match read_words(alloc, &words) {
        Ok(Asked::Help(text)) => text,
        Ok(Asked::Version(text)) => text,
        Ok(_) => return Ok(false),
        Err(fault) => fault.to_string(alloc)?,
    };
    Ok(text.as_str().starts_with(start))
}

#[test]
fn wrong_values_are_told(rt: HostRuntime) -> Result<(), AllocError> {
    for (line, sentence) in [
        (
            "build - --database t --digest-bytes 40",
            "--digest-bytes 40 is not among 8 to 32",
        ),
        (
            "build - --database t --digest-bytes 7",
            "--digest-bytes 7 is not among 8 to 32",
        ),
        (
            "build - --database t --rows 0",
            "--rows 0 is not among 1 to 1048576",
        ),
        (
            "build - --database t --rows 1048577",
            "--rows 1048577 is not among 1 to 1048576",
        ),
        (
            "build - --database t --value-bytes 5",
            "--value-bytes needs --values",
        ),
        (
            "build - --database t --values --value-bytes 16385",
            "--value-bytes 16385 is not among 0 to 16384",
        ),
        ("find c --degree 255", "--degree 255 is not among 1 to 254"),
        ("find c --agree 256", "--agree 256 is not among 1 to 255"),
        (
            "find c --agree +2",
            "--agree is no decimal number below 2^64",
        ),
        ("find c --servers a,,b", "--servers has an empty address"),
        ("", "no command; try --help"),
    ] {
        assert!(rt; says(rt.alloc(), line, sentence)?, "{line}");
    }
    Ok(())
}

#[test]
fn files_of_one_name_are_told(rt: HostRuntime) -> Result<(), AllocError> {
    for (line, sentence) in [
        (
            "build keys --database keys",
            "--database would be written over the file of the keys, which has the same name",
        ),
        (
            "build keys --database t --catalog keys",
            "--catalog would be written over the file of the keys, which has the same name",
        ),
        (
            "build - --database t --catalog t",
            "--catalog would be written over --database, which has the same name",
        ),
    ] {
        assert!(rt; says(rt.alloc(), line, sentence)?, "{line}");
    }
    Ok(())
}

#[test]
fn words_without_a_form_are_told(rt: HostRuntime) -> Result<(), AllocError> {
    for line in [
        "built - --database t",
        "build -",
        "build - --database",
        "build - --database t --bogus",
        "find c --hex --hex",
        "check t",
        "check t c more",
    ] {
        assert!(rt; says(rt.alloc(), line, "error: ")?, "{line}");
    }
    assert!(rt; says(rt.alloc(), "--version", "pir_list 0.4.0")?);
    assert!(rt; says(rt.alloc(), "--help", "Private look-ups in a list of keys")?);
    assert!(rt;
        says(
            rt.alloc(),
            "find --help",
            "Look up keys in a list, privately"
        )?
    );
    Ok(())
}
