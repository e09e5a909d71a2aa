//! The numbers of a plan, as a caller in another language gives them.

ghost use Rattle.std.specs.Prelude.{IsTrue, ◌↔◌};
ghost use Rattle.quantity_limits.specs.Shape.{IsShape};
ghost use Rattle.client_calls.specs.Numbers.{SaysPlan, SuitsScheme, SuitsServers};

use quantity_limits::{MOST_CELLS, MOST_ROWS, MOST_SERVERS, MOST_WIDTH};
use query_rounds::FetchPlan;
use wire_frames::{SHAMIR, XOR};

/// The numbers of a plan. They are wider than a plan's own, so that no number is cut off on its way here.
#[repr(C)]
#[derive(Clone, Copy, Debug, PartialEq, Eq)]
pub struct PlanNumbers {
    /// 1 for Shamir's sharing (Goldberg 2007), 2 for the XOR scheme (Chor, Goldreich, Kushilevitz and Sudan 1995).
    pub scheme: u32,
    /// So many servers together learn nothing of the block: t.
    pub degree: u32,
    /// How many answers have to agree: h.
    pub agreement: u32,
    /// The number of servers: n.
    pub servers: u32,
    /// So many servers together can't read the database: 0 where each holds the whole of it.
    pub tau: u32,
    /// The number of rows of the database.
    pub rows: u32,
    /// The width of a row, in bytes.
    pub width: u32,
}

impl PlanNumbers {
    /// Whether so many servers can agree in answers of that degree.
    fn suits_servers(&self) -> bool
        ensures { IsTrue result ↔ SuitsServers self.now }
    {
        let most = u32::from(MOST_SERVERS);
        1 <= self.degree
            && self.degree <= most
            && self.tau <= most
            && self.degree + self.tau < self.agreement
            && self.agreement <= self.servers
            && self.servers <= most
    }

    /// Whether the scheme is one, and allows those numbers.
    fn suits_scheme(&self) -> bool
        ensures { IsTrue result ↔ SuitsScheme self.now }
    {
        if self.scheme == u32::from(XOR) {
            return self.tau == 0
                && self.servers == self.agreement
                && self.degree < self.agreement
                && self.agreement - self.degree == 1;
        }
        self.scheme == u32::from(SHAMIR)
    }

    /// Whether a database may have that shape.
    fn has_shape(&self) -> bool
        ensures { IsTrue result ↔ IsShape self.now.rows self.now.width }
    {
        1 <= self.rows
            && self.rows <= MOST_ROWS
            && 1 <= self.width
            && self.width <= MOST_WIDTH
            && u64::from(self.rows) * u64::from(self.width) <= MOST_CELLS
    }

    /// The plan that they say, where they are in range.
    pub(crate) fn plan(&self) -> Option<FetchPlan>
        ensures { SaysPlan self.now result }
    {
        if !self.suits_servers() || !self.suits_scheme() || !self.has_shape() {
            return None;
        }
        Some(FetchPlan {
            scheme: self.scheme as u8,
            t: self.degree as u8,
            tau: self.tau as u8,
            h: self.agreement as u8,
            n: self.servers as u8,
            r: self.rows,
            s: self.width,
        })
    }
}
