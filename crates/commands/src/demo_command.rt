//! The command `demo`.

ghost use Rattle.std.specs.Prelude.{◌≡◌, ◌+◌, ◌<◌, length, map, string_bytes, IfOk, OnOk, OnErr};
ghost use Rattle.commands.specs.declared.orders.TheConstants.{TCP_PORTS};
ghost use Rattle.commands.specs.DemoOrder.{address_from, addresses_from, addresses_of_children, words_of_children, words_to_serve};
ghost use Rattle.commands.specs.DemoOutcome.{DemoOutcome, StartsAll, StartsSome};
ghost use Rattle.commands.specs.Texts.{texts_of, texts};

use crate::fetch_command::fetch_block;
use crate::orders::{DemoOrder, FetchOrder};
use crate::status::Status;
use port_trait::{Failed, Ports};
use std::alloc::{AllocError, Global};

/// The address of child i, counted from 1.
#[tactic(auto, unfolding(crate::specs::DemoOrder::address_from))]
fn address_of_child(alloc: Global, port: u16, i: u8) -> Result<String, AllocError>
    requires { port + i < TCP_PORTS }
    ensures { IfOk result (λ address. string_bytes address ≡ address_from port i) }
{
    let own = port + u16::from(i);
    format!(in alloc; "127.0.0.1:{own}")
}

/// The addresses of so many children, in their order.
#[tactic(auto, unfolding(crate::specs::DemoOrder::addresses_from))]
fn addresses_of_children(alloc: Global, port: u16, servers: u8) -> Result<Vec<String>, AllocError>
    requires { port + servers < TCP_PORTS }
    ensures { IfOk result (λ list. map string_bytes list.items ≡ addresses_from port servers) }
{
    let mut addresses = Vec::new(alloc);
    'children: for i in 0..servers {
        addresses.push(address_of_child(alloc, port, i + 1)?)?;
    }
    Ok(addresses)
}

/// These texts, each as a string of its own.
fn strings_of(alloc: Global, texts: &[&str]) -> Result<Vec<String>, AllocError>
    ensures { IfOk result (λ words. map string_bytes words.items ≡ map (λ text. text.now) texts.now) }
{
    let mut words = Vec::new(alloc);
    'words: for text in texts {
        words.push(String::from_str(alloc, text)?)?;
    }
    Ok(words)
}

/// The words of a child that serves the database, in rows of this width, to one guest at this address.
#[tactic(auto, unfolding(crate::specs::DemoOrder::words_to_serve))]
fn words_of_child(
    alloc: Global,
    database: &str,
    width: u32,
    address: &str,
) -> Result<Vec<String>, AllocError>
    ensures { IfOk result (λ w. texts w.items ≡ words_to_serve database.now width address.now) }
{
    let width = format!(in alloc; "{width}")?;
    let texts = [
        "serve",
        "--database",
        database,
        "--width",
        &width,
        "--conns",
        "1",
        "--listen",
        address,
    ];
    strings_of(alloc, &texts)
}

/// The words of the children at these addresses, in their order.
fn words_of_children(
    alloc: Global,
    database: &str,
    width: u32,
    addresses: &[String],
) -> Result<Vec<Vec<String>>, AllocError>
    ensures { IfOk result (λ lists. texts_of lists.items
        ≡ map (words_to_serve database.now width) (texts addresses.now)) }
{
    let mut lists = Vec::new(alloc);
    'children: for address in addresses {
        lists.push(words_of_child(alloc, database, width, address)?)?;
    }
    Ok(lists)
}

/// Starts a child with each list of words, in their order.
///
/// # Errors
///
/// `Failed` if a child could not be started. Those before it were, and no further one is.
fn start_children<P: Ports>(ports: &mut P, lists: &[Vec<String>]) -> Result<(), Failed>
    requires { length lists.now < 256 }
    ensures ok { OnOk result (StartsAll (texts_of lists.now) (P.world ports.old) (P.world ports.new)) }
    ensures failed { OnErr result (StartsSome (texts_of lists.now) (P.world ports.old) (P.world ports.new)) }
{
    let mut i = 0u8;
    'children: for words in lists {
        i += 1;
        let Ok(()) = ports.start_child(i, words) else {
            return Err(Failed);
        };
    }
    Ok(())
}

/// Starts a child with each list of words, and fetches the block from them at these addresses.
fn fetch_from_children<P: Ports>(
    alloc: Global,
    order: &DemoOrder,
    addresses: &[String],
    lists: &[Vec<String>],
    ports: &mut P,
) -> Status
    requires addresses { map string_bytes addresses.now ≡ addresses_of_children order.now }
    requires words { map (λ w. map string_bytes w.items) lists.now ≡ words_of_children order.now }
    ensures { DemoOutcome order.now result (P.world ports.old) (P.world ports.new) }
{
    let blocks = [order.block];
    let Ok(()) = start_children(ports, lists) else {
        return Status::ChildFault;
    };
    let fetching = FetchOrder::plain(order.plan, &blocks, addresses, order.coins);
    fetch_block(alloc, &fetching, ports)
}

/// Starts servers as children, each for one guest on loopback, and fetches a block from them, as `fetch` does, with no
/// record. All texts are made before the first child is started.
pub(crate) fn demonstrate<P: Ports>(alloc: Global, order: &DemoOrder, ports: &mut P) -> Status
    ensures { DemoOutcome order.now result (P.world ports.old) (P.world ports.new) }
{
    let Ok(addresses) = addresses_of_children(alloc, order.port, order.plan.n) else {
        return Status::Memory;
    };
    let Ok(lists) = words_of_children(alloc, order.database, order.plan.s, &addresses) else {
        return Status::Memory;
    };
    fetch_from_children(alloc, order, &addresses, &lists, ports)
}
