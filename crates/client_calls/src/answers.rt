//! What the servers of a fetch answered, as a caller holds it.

ghost use Rattle.std.specs.Prelude.{IsTrue, ◌↔◌, ◌≡◌, ◌<◌, ◌++◌, ◌∷◌, [], length};
ghost use Rattle.wire_frames.specs.Sizes.{answer_len};
ghost use Rattle.client_calls.specs.Answers.{AreAnswers, given, record_of, records_of, total};

use wire_frames::Session;

/// The answers of all servers, in the order of their indices.
#[derive(Clone, Copy, Debug)]
pub struct Answers<'a> {
    /// Their bytes, one answer behind another.
    pub bytes: &'a [u8],
    /// How many bytes each answer has.
    pub lengths: &'a [usize],
    /// For each server 0 where it was silent: its bytes count for nothing.
    pub marks: &'a [u8],
}

/// Whether the lengths add up to this.
fn add_up(lengths: &[usize], whole: usize) -> bool
    ensures { IsTrue result ↔ (total lengths.now ≡ whole) }
{
    let mut left = whole;
    for length in lengths {
        if left < *length {
            return false;
        }
        left -= *length;
    }
    left == 0
}

/// Adds the record of the next server to a session: the prefix of its answer that is as long as a whole one, or that it
/// was silent.
fn add_record(session: &mut Session, mark: u8, answer: &[u8], most: usize)
    requires few { length session.old.records < session.old.params.n }
    requires most { most ≡ answer_len session.old.params.count session.old.params.s }
    ensures { session.new ≡ record session.old {
      records = session.old.records ++ record_of most mark answer.now ∷ [];
    } }
{
    if mark == 0 {
        session.push_record(None);
    } else {
        session.push_record(Some(&answer[..answer.len().min(most)]));
    }
}

impl<'a> Answers<'a> {
    /// Whether they are those of so many servers.
    pub(crate) fn are_of(&self, servers: u8) -> bool
        ensures { IsTrue result ↔ AreAnswers servers (given self.now) }
    {
        let servers = usize::from(servers);
        self.lengths.len() == servers
            && self.marks.len() == servers
            && add_up(self.lengths, self.bytes.len())
    }

    /// Adds a record for each server to a session that has none yet.
    pub(crate) fn add_records(&self, session: &mut Session, most: usize)
        requires answers { AreAnswers session.old.params.n (given self.now) }
        requires fresh { session.old.records ≡ [] }
        requires most { most ≡ answer_len session.old.params.count session.old.params.s }
        ensures { session.new ≡ record session.old {
          records = records_of most session.old.params.n (given self.now);
        } }
    {
        let mut start = 0;
        for place in 0..self.lengths.len() {
            let end = start + self.lengths[place];
            add_record(session, self.marks[place], &self.bytes[start..end], most);
            start = end;
        }
    }
}
