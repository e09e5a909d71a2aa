//! What words can ask for.

/// A command with its values. The texts are those of the words.
#[derive(Drop)]
pub enum Asked<'a> {
    /// Make the table of a list.
    Build(Build<'a>),
    /// Look up keys in a list.
    Find(Find<'a>),
    /// See whether a database is the table that a catalog is of.
    Check(Check<'a>),
    /// Say how the program is called: this text.
    Help(String),
    /// Say which version it is: this text.
    Version(String),
}

/// Making the table of a list.
#[derive(Clone, Copy)]
pub struct Build<'a> {
    /// The file of the keys; `-` is standard input.
    pub keys: &'a str,
    /// The file that the table is written to.
    pub database: &'a str,
    /// The file that the catalog is written to; standard output where there is none.
    pub catalog: Option<&'a str>,
    /// Whether lines have values.
    pub values: bool,
    /// How many bytes a value may have, where lines have values; as many as the longest one has, where it isn't said.
    pub value_bytes: Option<usize>,
    /// How many bytes a digest has.
    pub digest_bytes: usize,
    /// How many rows the table has; the best number of them where it isn't said.
    pub rows: Option<u32>,
    /// The file that the salt comes from.
    pub coins: &'a str,
}

/// Looking up keys in a list.
#[derive(Clone, Copy)]
pub struct Find<'a> {
    /// The file of the catalog.
    pub catalog: &'a str,
    /// The file of the keys; `-` is standard input.
    pub keys: &'a str,
    /// The addresses of the servers, parted by commas, none of them empty; those of the catalog where there is none.
    pub servers: Option<&'a str>,
    /// How many servers together learn nothing; as the catalog says where it isn't given.
    pub degree: Option<u8>,
    /// How many servers have to agree; as the catalog says where it isn't given.
    pub agree: Option<u8>,
    /// The file that random bytes come from.
    pub coins: &'a str,
    /// Whether values are written in hexadecimal.
    pub hex: bool,
}

/// Seeing whether a database is the table that a catalog is of.
#[derive(Clone, Copy)]
pub struct Check<'a> {
    /// The file of the database.
    pub database: &'a str,
    /// The file of the catalog.
    pub catalog: &'a str,
}
