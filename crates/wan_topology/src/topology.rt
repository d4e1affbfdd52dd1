//! A topology: links by their numbers.

ghost use Rattle.std.specs.Prelude.{◌≡◌, ℕ, ◌+◌, ◌<◌, ◌≤◌, ◌↔◌, List, [], ◌∷◌, ◌++◌};
ghost use Rattle.std.specs.Prelude.{length, map, not, slice_index, slice_set, IfOk, IfErr, OnOk};
ghost use Rattle.std.specs.List.{list_any};
ghost use Rattle.std.specs.Str.{bytes_eq};
ghost use Rattle.std.specs.String.{string_bytes};
ghost use Rattle.wan_topology.specs.Network.{network_of, network_with, sites_of, IsNetwork};
ghost use Rattle.wan_topology.specs.Faults.{link_fault, first_link_fault, topology_fault, TellsFault};
ghost use Rattle.wan_topology.specs.Held.{link_of, links_of, network_held, texts};

use crate::fault::{TopologyError, TopologyFault};
use bwe_specs::{MAX_AMOUNT, MAX_LINKS};
use indexmap::IndexSet;
use std::alloc::{AllocError, Global};
use std::marker::Model;

/// A link as it is given. The capacity is in kilobits per second.
#[derive(Drop)]
pub struct LinkSpec {
    pub name: String,
    pub from: String,
    pub to: String,
    pub capacity: u64,
}

/// The sites where a link starts and ends.
#[derive(Drop)]
struct LinkSites {
    from: String,
    to: String,
}

/// The links of the network, by their numbers. Contracts see the record of their names, sites and
/// capacities.
///
/// Which links there are, with their names and sites, never changes. A capacity can.
#[derive(Drop)]
pub struct Topology {
    names: Vec<String>,
    sites: Vec<LinkSites>,
    capacities: Vec<u64>,
}

impl Model for Topology {
    ghost use Rattle.wan_topology.specs.Network.{Network, IsNetwork};

    ghost Value = { Network };

    ghost use Rattle.wan_topology.specs.Held.{network_held};

    ghost view = { λ topology. network_held topology.names.items topology.sites.items
        topology.capacities.items };

    ghost invariant = { λ topology. IsNetwork
        (network_held topology.names.items topology.sites.items topology.capacities.items) };
}

impl Topology {
    ghost use Rattle.wan_topology.specs.Held.{link_of, links_of};

    /// The topology of these links, numbered in their order.
    ///
    /// The fault that is told is the first one in the order of `TopologyFault`. It costs one
    /// look-up of a name for each link.
    pub fn build(alloc: Global, links: Vec<LinkSpec>) -> Result<Topology, TopologyError>
        ensures built { IfOk result (λ topology. topology ≡ network_of (links_of links.items)) }
        ensures accepted { OnOk result (topology_fault (links_of links.items) ≡ None) }
        ensures refused { IfErr result (TellsFault (topology_fault (links_of links.items))) }
    {
        let count = links.len() as u64;
        if count > MAX_LINKS {
            return Err(TopologyError::Refused {
                fault: TopologyFault::TooManyLinks { count },
            });
        }
        if let Some(fault) = first_fault(alloc, &links)? {
            return Err(TopologyError::Refused { fault });
        }
        let mut topology = Topology::empty(alloc);
        for link in links {
            topology = topology.with_link(link)?;
        }
        Ok(topology)
    }

    /// How many links there are.
    pub fn links(&self) -> u32
        ensures count { result ≡ length self.now.capacities }
        ensures network { IsNetwork self.now }
    {
        self.capacities.len() as u32
    }

    /// Does nothing. Who calls it knows what holds of each network.
    pub fn what_holds(&self)
        ensures { IsNetwork self.now }
    {
        let _count = self.capacities.len();
    }

    /// What the link can carry now, in kilobits per second.
    pub fn capacity(&self, link: u32) -> u64
        requires { link < length self.now.capacities }
        ensures { result ≡ slice_index self.now.capacities link }
    {
        self.capacities[link as usize]
    }

    /// The site where the link starts.
    pub fn from(&self, link: u32) -> &str
        requires { link < length self.now.capacities }
        ensures { result.now ≡ (sites_of self.now link).from }
    {
        self.sites[link as usize].from.as_str()
    }

    /// The site where the link ends.
    pub fn to(&self, link: u32) -> &str
        requires { link < length self.now.capacities }
        ensures { result.now ≡ (sites_of self.now link).to }
    {
        self.sites[link as usize].to.as_str()
    }

    /// Sets what the link can carry, in kilobits per second, and changes nothing else. It takes no
    /// memory.
    pub fn set_capacity(&mut self, link: u32, capacity: u64)
        requires link { link < length self.old.capacities }
        requires capacity { capacity ≤ MAX_AMOUNT }
        ensures { self.new
            ≡ record self.old { capacities = slice_set self.old.capacities link capacity } }
    {
        self.capacities[link as usize] = capacity;
    }

    // The topology of no link.
    fn empty(alloc: Global) -> Topology
        ensures { result ≡ network_of [] }
    {
        Topology {
            names: Vec::new(alloc),
            sites: Vec::new(alloc),
            capacities: Vec::new(alloc),
        }
    }

    // The topology with one more link, which gets the next number.
    fn with_link(self, link: LinkSpec) -> Result<Topology, AllocError>
        requires room { length self.capacities < MAX_LINKS }
        requires capacity { link.capacity ≤ MAX_AMOUNT }
        ensures { IfOk result (λ topology. topology ≡ network_with self (link_of link)) }
    {
        let Topology {
            mut names,
            mut sites,
            mut capacities,
        } = self;
        put_link(&mut names, &mut sites, &mut capacities, link)?;
        Ok(Topology {
            names,
            sites,
            capacities,
        })
    }
}

// Puts a link behind those that are held.
fn put_link(
    names: &mut Vec<String>,
    sites: &mut Vec<LinkSites>,
    capacities: &mut Vec<u64>,
    link: LinkSpec,
) -> Result<(), AllocError>
    ensures { OnOk result (network_held names.new.items sites.new.items capacities.new.items
        ≡ network_with (network_held names.old.items sites.old.items capacities.old.items)
        (link_of link)) }
{
    names.push(link.name)?;
    sites.push(LinkSites {
        from: link.from,
        to: link.to,
    })?;
    capacities.push(link.capacity)?;
    Ok(())
}

// The fault of the first link that has one. The set of names goes when it is told, so that a
// topology holds none.
fn first_fault(alloc: Global, links: &[LinkSpec]) -> Result<Option<TopologyFault>, AllocError>
    requires { length links.now ≤ MAX_LINKS }
    ensures { IfOk result (λ fault. fault ≡ first_link_fault [] 0 (links_of links.now)) }
{
    let mut names: IndexSet<&str> = IndexSet::new(alloc);
    for (number, link) in links.iter().enumerate() {
        let is_new = names.insert(link.name.as_str())?;
        if let Some(fault) = fault_of(number as u32, link, is_new) {
            return Ok(Some(fault));
        }
    }
    Ok(None)
}

// The fault of the link of this number, whose name is new among those before it, or is not.
#[tactic(auto, unfolding(crate::specs::Faults::link_fault))]
fn fault_of(number: u32, link: &LinkSpec, is_new: bool) -> Option<TopologyFault>
    ensures { (names : List (List ℕ)) → is_new ≡ not (list_any (bytes_eq (string_bytes link.now.name)) names)
        → result ≡ link_fault names number (link_of link.now) }
{
    if !is_new {
        return Some(TopologyFault::RepeatedLink { link: number });
    }
    if link.from == link.to {
        return Some(TopologyFault::SelfLink { link: number });
    }
    if link.capacity > MAX_AMOUNT {
        return Some(TopologyFault::CapacityOverMax { link: number });
    }
    None
}
