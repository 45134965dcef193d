//! A graph of so many nodes. It is the program that bench/graph.py times.
//!
//! The word is the number of pairs of nodes: a constant of its own, and its sum with the pair before. It prints how many nodes
//! the graph has, and the form of the last one.
#![tactic(auto)]

ghost use Rattle.std.specs.Prelude.{◌≡◌, ◌<◌, ◌≤◌, ◌+◌, ◌^◌, IfOk, [], length};
ghost use Rattle.tall_semantics.specs.Deferred.{AllBelow};
ghost use Rattle.tall_graph.specs.Later.{IsAbove, IsOperation};
ghost use Rattle.tall_graph.specs.Vertices.{HasPart, made_of};

use std::alloc::Global;
use std::io::ErrorKind;
use std::{env, io};
use tall_graph::{Graph, GraphFault, NodeId, NodeOp};
use tall_value::{Binary, Class, Owned};

/// A node with a number above all others.
fn add(graph: &mut Graph, number: u32, op: NodeOp, args: &[NodeId]) -> Result<NodeId, GraphFault>
    requires above { IsAbove graph.old number }
    requires operation { IsOperation (made_of op) }
    requires part { HasPart op }
    requires below { AllBelow (length graph.old) args.now }
    ensures above { IsAbove graph.new (number + 1) }
    ensures there { IfOk result (λ n. n < length graph.new) }
    ensures grown { length graph.old ≤ length graph.new }
{
    graph.add_node(number, 1, op, args)
}

fn first(graph: &mut Graph) -> Result<NodeId, GraphFault>
    requires { graph.old ≡ [] }
    ensures above { IsAbove graph.new 2 }
    ensures there { IfOk result (λ n. n < length graph.new) }
{
    let column = NodeOp::Stored {
        store: 0,
        variable: 0,
        class: Class::Int32,
    };
    graph.add_node(1, 1, column, &[])
}

fn pair(graph: &mut Graph, number: u32, before: NodeId) -> Result<NodeId, GraphFault>
    requires above { IsAbove graph.old number }
    requires there { before < length graph.old }
    requires fits { number < 2 ^ 31 }
    ensures above { IsAbove graph.new (number + 2) }
    ensures there { IfOk result (λ n. n < length graph.new) }
{
    let constant = NodeOp::Constant(Owned::I32(number as i32));
    let one = add(graph, number, constant, &[])?;
    add(
        graph,
        number + 1,
        NodeOp::Binary(Binary::Add),
        &[before, one],
    )
}

/// A graph of a column and so many pairs: how many nodes it has, and the form of the last.
fn build(alloc: Global, pairs: u32) -> Result<(usize, u64), GraphFault>
    requires { pairs ≤ 2 ^ 20 }
{
    let mut graph = Graph::new(alloc);
    let mut last = first(&mut graph)?;
    for i in 0..pairs {
        last = pair(&mut graph, 2 * i + 2, last)?;
    }
    Ok((graph.len(), graph.form_of(last)))
}

fn main(rt: HostRuntime) -> io::Result<()> {
    let mut words = Vec::new(rt.alloc());
    for word in env::args(&rt)? {
        words.push(word)?;
    }
    let pairs = match words.as_slice() {
        [_, pairs] => pairs.as_str().parse::<u32>().unwrap_or(0).min(1 << 20),
        _ => return Err(io::Error::from(ErrorKind::InvalidInput)),
    };
    match build(rt.alloc(), pairs) {
        Ok((nodes, form)) => println!(rt; "{nodes} nodes, the last has form {form}")?,
        Err(_) => println!(rt; "no memory")?,
    }
    Ok(())
}
