// The ports, and what a call on one of them does.
ghost use Rattle.std.specs.Prelude.{◌≡◌, ◌≢◌, ◌<◌, ◌≤◌, ◌+◌, List, ℕ, length, map, string_bytes, take, IfOk, IfSome, [], OnOk, OnErr};
ghost use Rattle.port_trait.specs.World.{World};
ghost use Rattle.port_trait.specs.Number.{DOOR, GUEST, child, number};
ghost use Rattle.port_trait.specs.Moves.{Touches, Hands, Fails, gave, named};
ghost use Rattle.port_trait.specs.Guests.{Meets};
ghost use Rattle.port_trait.specs.Children.{Starts};

/// The numbers of all ports lie below this.
pub const PORT_COUNT: usize = 1024;

/// There are so many links.
pub const LINK_COUNT: usize = 256;

/// A way into the program or out of it.
#[derive(Clone, Copy, Debug, PartialEq, Eq)]
pub enum Port {
    /// The file that is read, opened by its name.
    Input,
    /// Standard output, open from the start.
    Output,
    /// The file that a server answers from, which is read, opened by its name.
    Database,
    /// The file of coins, which is read.
    Coins,
    /// The file that a session is recorded in, which is written.
    Record,
    /// Where guests come in, opened by the address to listen at.
    Door,
    /// The stream to the guest that is in, opened by [`Ports::next_guest`].
    Guest,
    /// The stream to the server with this number, opened by the server's address.
    Link(u8),
    /// The child with this number, a program that [`Ports::start_child`] starts. It is not opened, and
    /// has a count alone.
    Child(u8),
    /// The file with the share of a database that the server with this number is to hold, which is
    /// written, opened by its name.
    Share(u8),
}

impl Port {
    /// The number that stands for the port in clauses: 0 for `Input`, 1 for `Output`, 2 for
    /// `Database`, 3 for `Coins`, 4 for `Record`, 5 for `Door`, 6 for `Guest`, 256 + i for `Link(i)`,
    /// 512 + i for `Child(i)`, and 768 + i for `Share(i)`.
    ///
    /// What clauses say of every other port, they say of the numbers below [`PORT_COUNT`].
    pub fn number(self) -> usize
        ensures is { result ≡ number self }
        ensures within { result < PORT_COUNT }
    {
        match self {
            Port::Input => 0,
            Port::Output => 1,
            Port::Database => 2,
            Port::Coins => 3,
            Port::Record => 4,
            Port::Door => 5,
            Port::Guest => 6,
            Port::Link(i) => 256 + usize::from(i),
            Port::Child(i) => 512 + usize::from(i),
            Port::Share(i) => 768 + usize::from(i),
        }
    }
}

/// A call on a port failed, and the port counted it.
#[derive(Clone, Copy, Debug, PartialEq, Eq)]
pub struct Failed;

/// The outside: ports that are opened, read and written, guests who come in one after another, and
/// children, which are started.
///
/// Each call but `next_guest` names one port and leaves every other port as it was. A call that fails raises that
/// port's count of failed calls by one, unless the count stands at `2^64 - 1`, and changes nothing else of
/// the port. A call that succeeds leaves the count: so no count ever falls, and none goes over
/// `2^64 - 1`; and where a count rose by one alone, no second call on the port failed. No call but `start_child`
/// starts a child.
///
/// ```
/// fn copy_byte<P: Ports>(ports: &mut P) -> Result<(), Failed> {
///     let mut byte = [0];
///     if ports.take(Port::Input, &mut byte)? == 1 {
///         ports.give(Port::Output, &byte)?;
///     }
///     Ok(())
/// }
/// ```
pub trait Ports {
    /// What is told of each port: always the count of its failed calls, and maybe the names that it
    /// was opened with, the bytes that it has still to hand out, and the bytes that it took. Of the
    /// guests maybe the bytes of those still to come, what each so far was given, and the count of
    /// `Guest` as each came in, and what each link held then and its count. Of the children maybe the
    /// words with which each was started.
    ghost world: { Self → World };

    /// Opens the port by this name. `Guest` is opened by [`Ports::next_guest`] alone, and not by a name.
    ///
    /// # Errors
    ///
    /// `Failed` if the port couldn't be opened; the name isn't among those told then.
    fn open(&mut self, p: Port, name: &str) -> Result<(), Failed>
        requires named { number p ≢ GUEST }
        ensures ok { OnOk result ((world self.new).at (number p)
            ≡ named name.now ((world self.old).at (number p))) }
        ensures failed { OnErr result (Fails (number p) (world self.old) (world self.new)) }
        ensures others { Touches (number p) (world self.old) (world self.new) };

    /// Hands out the next bytes of the port into the start of `into`, and returns how many. The
    /// rest of `into` stays. The number is 0 exactly at the end of the input.
    ///
    /// # Errors
    ///
    /// `Failed` if the port couldn't be read; no byte is lost then.
    fn take(&mut self, p: Port, into: &mut [u8]) -> Result<usize, Failed>
        requires { 0 < length into.old }
        ensures ok { IfOk result (λ n.
            Hands (number p) n into.old into.new (world self.old) (world self.new)) }
        ensures end { IfOk result (λ n.
            n ≡ 0 → IfSome ((world self.old).at (number p)).holds (λ h. h ≡ [])) }
        ensures failed { OnErr result (Fails (number p) (world self.old) (world self.new)) }
        ensures others { Touches (number p) (world self.old) (world self.new) };

    /// Gives the port the start of `piece`, and returns how many bytes that is: at least one.
    ///
    /// # Errors
    ///
    /// `Failed` if the port couldn't be written; it took no byte then.
    fn give(&mut self, p: Port, piece: &[u8]) -> Result<usize, Failed>
        requires { 0 < length piece.now }
        ensures some { IfOk result (λ n. 0 < n) }
        ensures fits { IfOk result (λ n. n ≤ length piece.now) }
        ensures ok { IfOk result (λ n. (world self.new).at (number p)
            ≡ gave (take n piece.now) ((world self.old).at (number p))) }
        ensures failed { OnErr result (Fails (number p) (world self.old) (world self.new)) }
        ensures others { Touches (number p) (world self.old) (world self.new) };

    /// Ends the guest before, and lets the next one in at `Door`: from then on `Guest` is the stream
    /// to the new guest, who was given nothing yet. Every other port stays, and so does the count of
    /// `Guest`.
    ///
    /// # Errors
    ///
    /// `Failed` if no guest came in. `Door` counts it, and nothing else that is told changes.
    fn next_guest(&mut self) -> Result<(), Failed>
        ensures ok { OnOk result (Meets (world self.old) (world self.new)) }
        ensures failed { OnErr result (Fails DOOR (world self.old) (world self.new)) }
        ensures others { OnErr result (Touches DOOR (world self.old) (world self.new)) };

    /// Starts a child with these words, and returns once it says that it is ready. Every port stays.
    ///
    /// # Errors
    ///
    /// `Failed` if the child couldn't be started or didn't say that it is ready. `Child(i)` counts it,
    /// and nothing else that is told changes: the words aren't among those told.
    fn start_child(&mut self, i: u8, words: &[String]) -> Result<(), Failed>
        ensures ok { OnOk result
            (Starts (map string_bytes words.now) (world self.old) (world self.new)) }
        ensures failed { OnErr result (Fails (child i) (world self.old) (world self.new)) }
        ensures others { OnErr result (Touches (child i) (world self.old) (world self.new)) };
}
