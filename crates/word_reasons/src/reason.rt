//! Why words have no form, in words.

ghost use Rattle.std.specs.Prelude.{◌≡◌};
ghost use Rattle.word_reasons.specs.Reason.{HidesNumber, is_secret};

use clap::error::ErrorKind;
use std::fmt::{self, Display, Formatter, Write};

/// Why words have no form. No value of `--key`, `--block` or `--more` stands in it.
#[derive(Clone, Copy)]
pub enum Reason<'a> {
    /// There is no word.
    NoCommand,
    /// The first word is no command.
    UnknownCommand(&'a str),
    /// A word is no option of the command; of `--NAME=VALUE` it is the name.
    UnknownOption(&'a str),
    /// An option is given in a wrong way.
    Faulty(&'a str, OptionFault),
    /// A word is missing that is no option: a `file`, or `addresses`.
    NoOperand(&'a str),
    /// The word at this place, counted from 1, is one more than the command takes.
    StrayWord(u64),
    /// The value of an option isn't what it has to be.
    Unread(&'a str, Option<&'a str>, Wanted),
    /// A number is out of its range.
    Compared(Amount<'a>, Relation, Amount<'a>),
    /// `clap` refused the words for a fault of this kind.
    Refused(ErrorKind),
}

/// In which way an option is given that may not be given so.
#[derive(Clone, Copy)]
pub enum OptionFault {
    /// It has to be given, and isn't.
    Missing,
    /// It is given twice.
    Repeated,
    /// It is given without a value.
    NoValue,
    /// It has a value, and takes none.
    UnwantedValue,
    /// It may not be given in the XOR scheme.
    NotForXor,
}

/// What a value has to be.
#[derive(Clone, Copy)]
pub enum Wanted {
    /// Decimal digits, of a number below 2^64.
    Number,
    /// Such numbers, split by single commas.
    Numbers,
    /// The name of a scheme.
    Scheme,
    /// Hexadecimal digits, two for each byte, of one byte or more.
    Bytes,
}

/// How one amount is to another.
#[derive(Clone, Copy)]
pub enum Relation {
    /// It is greater, and may not be.
    Above,
    /// It is less, and may not be.
    Below,
    /// It isn't greater, and has to be.
    NotAbove,
    /// It isn't less, and has to be.
    NotBelow,
    /// It is another, and may not be.
    Unlike,
    /// It has more bytes than the other says, and may not.
    Longer,
}

/// The number of an option, or of `addresses`, `blocks` or `shards`.
#[derive(Clone, Copy)]
pub struct Named<'a> {
    /// The option's name, without its dashes, or what is counted.
    pub name: &'a str,
    /// The number; `None` where it says what is looked for.
    pub number: Option<u64>,
}

/// What is compared.
#[derive(Clone, Copy)]
pub enum Amount<'a> {
    /// A bound.
    Limit(u64),
    /// A number of the words.
    Of(Named<'a>),
    /// The product of two.
    Times(Named<'a>, Named<'a>),
    /// The sum of two.
    Plus(Named<'a>, Named<'a>),
}

/// Whether the value of the option of this name says what is looked for.
#[tactic(auto, unfolding(crate::specs::Reason::is_secret))]
pub(crate) fn is_secret(name: &str) -> bool
    ensures { result ≡ is_secret name.now }
{
    name == "key" || name == "block" || name == "more"
}

impl<'a> Named<'a> {
    /// The number of this name, which isn't kept where it says what is looked for.
    pub(crate) fn new(name: &'a str, number: u64) -> Named<'a>
        ensures { HidesNumber result }
    {
        let number = if is_secret(name) { None } else { Some(number) };
        Named { name, number }
    }
}

impl<'a> Display for Named<'a> {
    fn fmt<W: Write>(&self, f: &mut Formatter<W>) -> fmt::Result {
        let mark = match self.name {
            "addresses" | "blocks" | "shards" => "the number of ",
            _ => "--",
        };
        let name = self.name;
        match self.number {
            Some(number) => write!(f, "{mark}{name} {number}"),
            None => write!(f, "{mark}{name}"),
        }
    }
}

impl<'a> Display for Amount<'a> {
    fn fmt<W: Write>(&self, f: &mut Formatter<W>) -> fmt::Result {
        match self {
            Amount::Limit(most) => write!(f, "{most}"),
            Amount::Of(named) => write!(f, "{named}"),
            Amount::Times(first, second) => write!(f, "{first} times {second}"),
            Amount::Plus(first, second) => write!(f, "{first} plus {second}"),
        }
    }
}

impl Display for Relation {
    fn fmt<W: Write>(&self, f: &mut Formatter<W>) -> fmt::Result {
        f.write_str(match self {
            Relation::Above => "is above",
            Relation::Below => "is below",
            Relation::NotAbove => "is not above",
            Relation::NotBelow => "is not below",
            Relation::Unlike => "is not",
            Relation::Longer => "is longer than",
        })
    }
}

impl Display for OptionFault {
    fn fmt<W: Write>(&self, f: &mut Formatter<W>) -> fmt::Result {
        f.write_str(match self {
            OptionFault::Missing => "is missing",
            OptionFault::Repeated => "is given twice",
            OptionFault::NoValue => "has no value",
            OptionFault::UnwantedValue => "takes no value",
            OptionFault::NotForXor => "is not for the scheme xor",
        })
    }
}

impl Display for Wanted {
    fn fmt<W: Write>(&self, f: &mut Formatter<W>) -> fmt::Result {
        f.write_str(match self {
            Wanted::Number => "no decimal number below 2^64",
            Wanted::Numbers => "no decimal numbers, split by commas",
            Wanted::Scheme => "neither shamir nor xor",
            Wanted::Bytes => "no hexadecimal digits, two for each byte",
        })
    }
}

impl<'a> Display for Reason<'a> {
    fn fmt<W: Write>(&self, f: &mut Formatter<W>) -> fmt::Result {
        match self {
            Reason::NoCommand => f.write_str("no command"),
            Reason::UnknownCommand(word) => write!(f, "unknown command {word}"),
            Reason::UnknownOption(word) => write!(f, "unknown option {word}"),
            Reason::Faulty(name, fault) => write!(f, "--{name} {fault}"),
            Reason::NoOperand("addresses") => f.write_str("no address"),
            Reason::NoOperand(name) => write!(f, "no {name}"),
            Reason::StrayWord(place) => write!(f, "word {place} is one too many"),
            Reason::Unread(name, Some(text), wanted) => { write!(f, "--{name} {text} is {wanted}") }
            Reason::Unread(name, None, wanted) => write!(f, "--{name} is {wanted}"),
            Reason::Compared(left, how, right) => write!(f, "{left} {how} {right}"),
            Reason::Refused(kind) => write!(f, "{kind}"),
        }
    }
}
