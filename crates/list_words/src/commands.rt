//! The commands of `pir_list`, with their arguments.

use crate::command::{Argument, Form, Kind};

const BUILD: &[Argument<'static>] = &[
    Argument {
        name: "keys",
        kind: Kind::Operand,
        value: "KEYS",
        help: "The file of the keys, a line each; - is standard input",
    },
    Argument {
        name: "database",
        kind: Kind::Required,
        value: "FILE",
        help: "Where the table goes, which servers serve",
    },
    Argument {
        name: "catalog",
        kind: Kind::Optional,
        value: "FILE",
        help: "Where the catalog goes, which clients need [default: standard output]",
    },
    Argument {
        name: "values",
        kind: Kind::Flag,
        value: "",
        help: "Lines have a value behind their first tab",
    },
    Argument {
        name: "value-bytes",
        kind: Kind::Optional,
        value: "V",
        help: "How many bytes a value may have, with --values [default: as the longest one has]",
    },
    Argument {
        name: "digest-bytes",
        kind: Kind::Optional,
        value: "D",
        help: "How many bytes of its digest stand for a key, 8 to 32 [default: 16]",
    },
    Argument {
        name: "rows",
        kind: Kind::Optional,
        value: "R",
        help: "How many rows the table has [default: those that make a look-up smallest]",
    },
    Argument {
        name: "coins",
        kind: Kind::Optional,
        value: "FILE",
        help: "Where the salt comes from [default: /dev/urandom]",
    },
];

const FIND: &[Argument<'static>] = &[
    Argument {
        name: "catalog",
        kind: Kind::Operand,
        value: "CATALOG",
        help: "The catalog of the list",
    },
    Argument {
        name: "keys",
        kind: Kind::Optional,
        value: "FILE",
        help: "The file of the keys, a line each; - is standard input [default: -]",
    },
    Argument {
        name: "servers",
        kind: Kind::Optional,
        value: "ADDRESS,..",
        help: "The servers' addresses [default: those of the catalog]",
    },
    Argument {
        name: "degree",
        kind: Kind::Optional,
        value: "T",
        help: "How many servers together learn nothing [default: as in the catalog]",
    },
    Argument {
        name: "agree",
        kind: Kind::Optional,
        value: "H",
        help: "How many servers have to agree [default: as in the catalog]",
    },
    Argument {
        name: "coins",
        kind: Kind::Optional,
        value: "FILE",
        help: "Where random bytes come from [default: /dev/urandom]",
    },
    Argument {
        name: "hex",
        kind: Kind::Flag,
        value: "",
        help: "Write values in hexadecimal",
    },
];

const CHECK: &[Argument<'static>] = &[
    Argument {
        name: "database",
        kind: Kind::Operand,
        value: "DATABASE",
        help: "The file of the table",
    },
    Argument {
        name: "catalog",
        kind: Kind::Operand,
        value: "CATALOG",
        help: "Its catalog",
    },
];

/// The commands of `pir_list`.
pub(crate) const COMMANDS: &[Form<'static>] = &[
    Form {
        name: "build",
        about: "Make the table of a list, and its catalog",
        arguments: BUILD,
    },
    Form {
        name: "find",
        about: "Look up keys in a list, privately",
        arguments: FIND,
    },
    Form {
        name: "check",
        about: "See whether a file is the table that a catalog is of",
        arguments: CHECK,
    },
];
