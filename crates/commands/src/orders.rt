//! What each command is told to do, with the ranges of its values, how the words give it, and what does it.

ghost use Rattle.std.specs.Prelude.{◌≡◌};
ghost use Rattle.std.specs.Option.{option_copied};
ghost use Rattle.pir_words.specs.Form.{InRange};
ghost use Rattle.commands.specs.Orders.{Outcome, Promise, order_of};

use crate::demo_command::demonstrate;
use crate::fetch_command::fetch_block;
use crate::front_command::relay_shards;
use crate::lookup_command::look_up_row;
use crate::replay_command::replay_file;
use crate::selfrun_command::run_workload;
use crate::serve_command::serve_file;
use crate::split_command::split_file;
use crate::status::Status;
use drawn_workload::{Workload, WorkloadOrder};
use fetch_client::FetchPlan;
use key_search::Key;
use pir_words::{Asked, Text};
use port_trait::Ports;
use std::alloc::Global;
use std::marker::Model;
use std::thread::Threads;
use wire_frames::SHAMIR;

/// TCP has so many ports, from 0 on.
pub(crate) const TCP_PORTS: u32 = 65536;

/// Which session is replayed, and whether a report is wanted.
#[derive(Drop)]
pub(crate) struct ReplayOrder<'a> {
    pub(crate) file: &'a str,
    pub(crate) report: bool,
}

impl<'a> Model for ReplayOrder<'a> {
    ghost use Rattle.commands.specs.ReplayOrder.{ReplayOrder};

    ghost Value = { ReplayOrder };

    ghost view = { λ r. record { file = r.file.now; report = r.report } };
}

/// Which blocks are fetched, and how, from which servers, with which coins, in which file the session is kept, if it is,
/// and whether a report is wanted.
#[derive(Drop)]
pub(crate) struct FetchOrder<'a, 'b> {
    pub(crate) plan: FetchPlan,
    pub(crate) blocks: &'a [u32],
    pub(crate) addresses: &'a [String],
    pub(crate) coins: &'b str,
    pub(crate) keep: Option<&'b str>,
    pub(crate) report: bool,
}

impl<'a, 'b> Model for FetchOrder<'a, 'b> {
    ghost use Rattle.std.specs.Prelude.{◌≡◌, length, map, string_bytes};
    ghost use Rattle.std.specs.Option.{option_copied};
    ghost use Rattle.query_rounds.specs.Plan.{AreBlocks, IsPlan};
    ghost use Rattle.commands.specs.FetchOrder.{FetchOrder};

    ghost Value = { FetchOrder };

    ghost view = { λ f. record {
      plan = f.plan;
      blocks = f.blocks.now;
      addresses = map string_bytes f.addresses.now;
      coins = f.coins.now;
      keep = option_copied f.keep;
      report = f.report;
    } };

    ghost invariant = { λ f. IsPlan f.plan × AreBlocks f.plan f.blocks.now
        × (length f.addresses.now ≡ f.plan.n) };
}

impl<'a, 'b> FetchOrder<'a, 'b> {
    ghost use Rattle.std.specs.Prelude.{◌≡◌, length, map, string_bytes};
    ghost use Rattle.query_rounds.specs.Plan.{AreBlocks, IsPlan};
    ghost use Rattle.commands.specs.FetchOrder.{plain_fetch};

    /// A fetch that isn't recorded, and of which no report is wanted.
    pub(crate) fn plain(
        plan: FetchPlan,
        blocks: &'a [u32],
        addresses: &'a [String],
        coins: &'b str,
    ) -> FetchOrder<'a, 'b>
        requires plan { IsPlan plan }
        requires blocks { AreBlocks plan blocks.now }
        requires servers { length addresses.now ≡ plan.n }
        ensures { result ≡ plain_fetch plan blocks.now (map string_bytes addresses.now) coins.now }
    {
        FetchOrder {
            plan,
            blocks,
            addresses,
            coins,
            keep: None,
            report: false,
        }
    }
}

/// Which row is looked up, among which rows and how, from which servers, and with which coins.
#[derive(Drop)]
pub(crate) struct LookUpOrder<'a> {
    pub(crate) plan: FetchPlan,
    pub(crate) key: &'a Key,
    pub(crate) addresses: &'a [String],
    pub(crate) coins: &'a str,
}

impl<'a> Model for LookUpOrder<'a> {
    ghost use Rattle.std.specs.Prelude.{◌≡◌, ◌≤◌, length, map, string_bytes};
    ghost use Rattle.wire_frames.specs.declared.scheme.TheConstants.{SHAMIR};
    ghost use Rattle.query_rounds.specs.Plan.{IsPlan};
    ghost use Rattle.commands.specs.LookUpOrder.{LookUpOrder};

    ghost Value = { LookUpOrder };

    ghost view = { λ l. record {
      plan = l.plan;
      key = l.key.now;
      addresses = map string_bytes l.addresses.now;
      coins = l.coins.now;
    } };

    ghost invariant = { λ l. IsPlan l.plan × (l.plan.scheme ≡ SHAMIR) × (length l.key.now ≤ l.plan.s)
        × (length l.addresses.now ≡ l.plan.n) };
}

/// What is served, where, to how many guests, and by how many workers.
#[derive(Drop)]
pub(crate) struct ServeOrder<'a> {
    pub(crate) scheme: u8,
    pub(crate) database: &'a str,
    pub(crate) width: u32,
    pub(crate) conns: u32,
    pub(crate) listen: &'a str,
    pub(crate) workers: u8,
}

impl<'a> Model for ServeOrder<'a> {
    ghost use Rattle.std.specs.Prelude.{◌≡◌, ◌⊎◌, ◌≤◌};
    ghost use Rattle.quantity_limits.specs.declared.TheConstants.{MOST_WIDTH, MOST_WORKERS};
    ghost use Rattle.wire_frames.specs.declared.scheme.TheConstants.{SHAMIR, XOR};
    ghost use Rattle.commands.specs.ServeOrder.{ServeOrder};

    ghost Value = { ServeOrder };

    ghost view = { λ s. record {
      scheme = s.scheme;
      database = s.database.now;
      width = s.width;
      conns = s.conns;
      listen = s.listen.now;
      workers = s.workers;
    } };

    ghost invariant = { λ s. ((s.scheme ≡ SHAMIR) ⊎ (s.scheme ≡ XOR)) × (1 ≤ s.width)
        × (s.width ≤ MOST_WIDTH) × (1 ≤ s.workers) × (s.workers ≤ MOST_WORKERS) };
}

/// Which database is split, how, into which files, and with which coins.
#[derive(Drop)]
pub(crate) struct SplitOrder<'a> {
    pub(crate) database: &'a str,
    pub(crate) width: u32,
    pub(crate) servers: u8,
    pub(crate) tau: u8,
    pub(crate) into: &'a str,
    pub(crate) coins: &'a str,
}

impl<'a> Model for SplitOrder<'a> {
    ghost use Rattle.std.specs.Prelude.{◌<◌, ◌≤◌};
    ghost use Rattle.quantity_limits.specs.declared.TheConstants.{MOST_WIDTH};
    ghost use Rattle.commands.specs.SplitOrder.{SplitOrder};

    ghost Value = { SplitOrder };

    ghost view = { λ s. record {
      database = s.database.now;
      width = s.width;
      servers = s.servers;
      tau = s.tau;
      into = s.into.now;
      coins = s.coins.now;
    } };

    ghost invariant = { λ s. (1 ≤ s.width) × (s.width ≤ MOST_WIDTH) × (1 ≤ s.tau) × (s.tau < s.servers) };
}

/// How many rows of how many bytes are spread, so many on each shard, where guests come in, how many are met, and the address
/// of each shard.
#[derive(Drop)]
pub(crate) struct FrontOrder<'a> {
    pub(crate) rows: u32,
    pub(crate) width: u32,
    pub(crate) shard: u32,
    pub(crate) conns: u32,
    pub(crate) listen: &'a str,
    pub(crate) addresses: &'a [String],
}

impl<'a> Model for FrontOrder<'a> {
    ghost use Rattle.std.specs.Prelude.{length, map, string_bytes};
    ghost use Rattle.pir_words.specs.FrontForm.{IsFront};
    ghost use Rattle.commands.specs.FrontOrder.{FrontOrder};

    ghost Value = { FrontOrder };

    ghost view = { λ f. record {
      spread = record { rows = f.rows; width = f.width; shard = f.shard };
      conns = f.conns;
      listen = f.listen.now;
      addresses = map string_bytes f.addresses.now;
    } };

    ghost invariant = { λ f. IsFront f.rows f.width f.shard f.conns (length f.addresses.now) };
}

/// What is fetched, from which children, and with which coins.
#[derive(Drop)]
pub(crate) struct DemoOrder<'a> {
    pub(crate) port: u16,
    pub(crate) database: &'a str,
    pub(crate) plan: FetchPlan,
    pub(crate) block: u32,
    pub(crate) coins: &'a str,
}

impl<'a> Model for DemoOrder<'a> {
    ghost use Rattle.std.specs.Prelude.{◌+◌, ◌<◌};
    ghost use Rattle.query_rounds.specs.Plan.{IsPlan};
    ghost use Rattle.commands.specs.declared.orders.TheConstants.{TCP_PORTS};
    ghost use Rattle.commands.specs.DemoOrder.{DemoOrder};

    ghost Value = { DemoOrder };

    ghost view = { λ d. record {
      port = d.port;
      database = d.database.now;
      plan = d.plan;
      block = d.block;
      coins = d.coins.now;
    } };

    ghost invariant = { λ d. (d.port + d.plan.n < TCP_PORTS) × IsPlan d.plan × (d.block < d.plan.r) };
}

/// What a command is told to do.
#[derive(Drop)]
pub(crate) enum Order<'a> {
    Replay(ReplayOrder<'a>),
    Fetch(FetchOrder<'a, 'a>),
    Serve(ServeOrder<'a>),
    Selfrun(WorkloadOrder),
    Demo(DemoOrder<'a>),
    Lookup(LookUpOrder<'a>),
    Split(SplitOrder<'a>),
    Front(FrontOrder<'a>),
}

/// The text of a word, where there is one.
fn text_of(word: &Option<Text>) -> Option<&str>
    ensures { option_copied result ≡ word.now }
{
    match word {
        Some(text) => Some(text.as_str()),
        None => None,
    }
}

/// What a command with its values orders. A command is taken apart here and nowhere else.
#[rattlefmt::skip]
pub(crate) fn order_of<'a>(asked: &'a Asked) -> Order<'a>
    requires { InRange asked.now }
    ensures { result ≡ order_of asked.now }
{
    match asked {
        Asked::Replay { file, report } => Order::Replay(ReplayOrder { file: file.as_str(), report: *report }),
        Asked::Fetch { scheme, rows, width, blocks, degree, tau, agree, coins, keep, report, addresses } => {
            let addresses = addresses.as_slice();
            let n = addresses.len() as u8;
            let plan = FetchPlan { scheme: *scheme, t: *degree, tau: *tau, h: *agree, n, r: *rows, s: *width };
            let (coins, keep) = (coins.as_str(), text_of(keep));
            Order::Fetch(FetchOrder { plan, blocks: blocks.as_slice(), addresses, coins, keep, report: *report })
        }
        Asked::Serve { scheme, database, width, conns, listen, workers } => {
            let (database, listen) = (database.as_str(), listen.as_str());
            Order::Serve(ServeOrder { scheme: *scheme, database, width: *width, conns: *conns, listen, workers: *workers })
        }
        Asked::Selfrun { seed, rows, width, servers, degree, agree, liars, workers, slow } => {
            let load = Workload {
                seed: *seed, rows: *rows, width: *width, servers: *servers, degree: *degree, agree: *agree, liars: *liars,
            };
            Order::Selfrun(WorkloadOrder { load, workers: *workers, slow: *slow })
        }
        Asked::Demo { port, database, rows, width, block, servers, degree, agree, coins } => {
            let plan = FetchPlan { scheme: SHAMIR, t: *degree, tau: 0, h: *agree, n: *servers, r: *rows, s: *width };
            let (database, coins) = (database.as_str(), coins.as_str());
            Order::Demo(DemoOrder { port: *port, database, plan, block: *block, coins })
        }
        Asked::Lookup { rows, width, key, degree, agree, coins, addresses } => {
            let addresses = addresses.as_slice();
            let n = addresses.len() as u8;
            let plan = FetchPlan { scheme: SHAMIR, t: *degree, tau: 0, h: *agree, n, r: *rows, s: *width };
            Order::Lookup(LookUpOrder { plan, key, addresses, coins: coins.as_str() })
        }
        Asked::Split { database, width, servers, tau, into, coins } => {
            let (database, into, coins) = (database.as_str(), into.as_str(), coins.as_str());
            Order::Split(SplitOrder { database, width: *width, servers: *servers, tau: *tau, into, coins })
        }
        Asked::Front { rows, width, shard, conns, listen, addresses } => {
            let (listen, addresses) = (listen.as_str(), addresses.as_slice());
            Order::Front(FrontOrder { rows: *rows, width: *width, shard: *shard, conns: *conns, listen, addresses })
        }
    }
}

/// Does what is ordered.
pub(crate) fn dispatch<R: Threads + Sync, P: Ports>(
    rt: &R,
    alloc: Global,
    order: &Order,
    ports: &mut P,
) -> Status
    ensures outcome { Outcome order.now result (P.world ports.old) (P.world ports.new) }
    ensures promise { Promise order.now result (P.world ports.old) (P.world ports.new) }
{
    match order {
        Order::Replay(order) => replay_file(alloc, order, ports),
        Order::Fetch(order) => fetch_block(alloc, order, ports),
        Order::Serve(order) => serve_file(rt, alloc, order, ports),
        Order::Selfrun(order) => run_workload(rt, alloc, order, ports),
        Order::Demo(order) => {
            // A use of a field tells the proof that the values are in their ranges.
            let _ = &order.plan;
            demonstrate(alloc, order, ports)
        }
        Order::Lookup(order) => look_up_row(alloc, order, ports),
        Order::Split(order) => {
            let _ = &order.width;
            split_file(alloc, order, ports)
        }
        Order::Front(order) => relay_shards(alloc, order, ports),
    }
}
