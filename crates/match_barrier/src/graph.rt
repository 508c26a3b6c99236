ghost use Rattle.std.specs.Prelude.{◌≡◌, ◌≢◌, ◌⊎◌, ◌↔◌, ℕ, ◌+◌, ◌<◌, ◌^◌, List, ◌++◌, [], ◌∷◌, length, map, set, get_or, replicate, take, OnOk, OnErr, IfOk, true, false};
ghost use Rattle.std.specs.List.{All};
ghost use Rattle.match_barrier.specs.Graph.{IsGraph, IsEdge, adjacent, neighbours_of, with_edge};

use mc_base::NoMemory;
use std::alloc::Global;
use std::marker::Model;

/// A graph whose nodes are the numbers below its node count.
#[derive(Drop)]
pub struct Graph {
    rows: Vec<Vec<u32>>,
}

impl Model for Graph {
    ghost use Rattle.std.specs.Prelude.{List, ℕ, map, length, ◌<◌, ◌^◌};
    ghost use Rattle.match_barrier.specs.Graph.{IsGraph};

    ghost Value = { List (List ℕ) };

    ghost view = { λ g. map (λ row. row.items) g.rows.items };

    ghost invariant = { λ g. IsGraph (map (λ row. row.items) g.rows.items) × (length g.rows.items < 2 ^ 32) };
}

impl Graph {
    /// A graph with no edges.
    pub fn new(alloc: Global, nodes: u32) -> Result<Graph, NoMemory>
        ensures { IfOk result (λ g. g ≡ replicate nodes []) }
    {
        let mut rows: Vec<Vec<u32>> = Vec::new(alloc);
        for _ in 0..nodes {
            rows.push(Vec::new(alloc))?;
        }
        Ok(Graph { rows })
    }

    /// Joins two nodes that are not joined yet. Where memory runs out the graph is as it was.
    pub fn add_edge(&mut self, u: u32, v: u32) -> Result<(), NoMemory>
        requires first { u < length self.old }
        requires second { v < length self.old }
        requires different { u ≢ v }
        requires no_edge { adjacent self.old u v ≡ false }
        ensures ok { OnOk result (self.new ≡ with_edge self.old u v) }
        ensures edges { OnOk result ((a b : ℕ) → (adjacent self.new a b ≡ true) ↔ ((adjacent self.old a b ≡ true) ⊎ IsEdge u v a b)) }
        ensures nodes { length self.new ≡ length self.old }
        ensures err { OnErr result (self.new ≡ self.old) }
    {
        push_both(&mut self.rows, u, v)
    }

    /// The number of nodes.
    pub fn node_count(&self) -> u32
        ensures count { result ≡ length self.now }
        ensures graph { IsGraph self.now }
    {
        self.rows.len() as u32
    }

    /// The neighbours of a node, in the order in which their edges were added.
    pub fn neighbours(&self, u: u32) -> &[u32]
        requires { u < length self.now }
        ensures list { result.now ≡ neighbours_of self.now u }
        ensures in_range { All (λ v. v < length self.now) result.now }
    {
        self.rows[u as usize].as_slice()
    }

    /// Whether there is an edge between two nodes.
    pub fn are_adjacent(&self, u: u32, v: u32) -> bool
        requires { u < length self.now }
        ensures { result ≡ adjacent self.now u v }
    {
        self.neighbours(u).iter().any(|w| *w == v)
    }
}

// u and v become neighbours, or nothing changes.
fn push_both(rows: &mut Vec<Vec<u32>>, u: u32, v: u32) -> Result<(), NoMemory>
    requires first { u < length rows.old.items }
    requires second { v < length rows.old.items }
    ensures ok { OnOk result (map (λ row. row.items) rows.new.items ≡ with_edge (map (λ row. row.items) rows.old.items) u v) }
    ensures err { OnErr result (map (λ row. row.items) rows.new.items ≡ map (λ row. row.items) rows.old.items) }
    ensures length { length rows.new.items ≡ length rows.old.items }
{
    let degree = degree(rows, u);
    push_one(rows, u, v)?;
    match push_one(rows, v, u) {
        Ok(()) => Ok(()),
        Err(stop) => {
            cut(rows, u, degree);
            Err(stop)
        }
    }
}

fn degree(rows: &Vec<Vec<u32>>, u: u32) -> usize
    requires { u < length rows.now.items }
    ensures { result ≡ length (get_or (map (λ row. row.items) rows.now.items) u []) }
{
    let row = &rows[u as usize];
    row.as_slice().len()
}

fn push_one(rows: &mut Vec<Vec<u32>>, u: u32, v: u32) -> Result<(), NoMemory>
    requires { u < length rows.old.items }
    ensures ok { OnOk result (map (λ row. row.items) rows.new.items ≡ set (map (λ row. row.items) rows.old.items) u (get_or (map (λ row. row.items) rows.old.items) u [] ++ v ∷ [])) }
    ensures err { OnErr result (map (λ row. row.items) rows.new.items ≡ map (λ row. row.items) rows.old.items) }
    ensures length { length rows.new.items ≡ length rows.old.items }
{
    let row = &mut rows[u as usize];
    match row.push(v) {
        Ok(()) => Ok(()),
        Err(_) => Err(NoMemory),
    }
}

fn cut(rows: &mut Vec<Vec<u32>>, u: u32, degree: usize)
    requires { u < length rows.old.items }
    ensures cut { map (λ row. row.items) rows.new.items ≡ set (map (λ row. row.items) rows.old.items) u (take degree (get_or (map (λ row. row.items) rows.old.items) u [])) }
    ensures length { length rows.new.items ≡ length rows.old.items }
{
    let row = &mut rows[u as usize];
    row.truncate(degree);
}
