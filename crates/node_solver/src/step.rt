// What a step of the search makes of a node.
ghost use Rattle.std.specs.Prelude.{◌≡◌};

use crew_instance::Plan;
use crew_num::Overflow;
use crew_terms::Choice;
use frac_master::Share;
use potentials::Prices;
use std::marker::Model;
use tree_rehearsal::Script;

/// A list of shares of columns. In contracts: that list.
#[derive(Drop)]
pub struct Shares {
    list: Vec<Share>,
}

impl Model for Shares {
    ghost use Rattle.std.specs.Prelude.{List};
    ghost use Rattle.frac_master.specs.declared.shares.Share.{Share as ColumnShare};

    ghost Value = { List ColumnShare };

    ghost view = { λ a. a.list.items };
}

impl Shares {
    /// The list with these shares. It takes no memory.
    pub fn of(list: Vec<Share>) -> Shares
        ensures { result ≡ list.items }
    {
        Shares { list }
    }

    /// The shares, one after the other.
    pub fn as_slice(&self) -> &[Share]
        ensures { result.now ≡ self.now }
    {
        &self.list
    }
}

/// A list of numbers of parts. In contracts: that list.
#[derive(Drop)]
pub struct Parts {
    list: Vec<i128>,
}

impl Model for Parts {
    ghost use Rattle.std.specs.Prelude.{List, ℤ};

    ghost Value = { List ℤ };

    ghost view = { λ a. a.list.items };
}

impl Parts {
    /// The list with these numbers. It takes no memory.
    pub fn of(list: Vec<i128>) -> Parts
        ensures { result ≡ list.items }
    {
        Parts { list }
    }

    /// The numbers, one after the other.
    pub fn as_slice(&self) -> &[i128]
        ensures { result.now ≡ self.now }
    {
        &self.list
    }
}

/// Why a node is split.
#[derive(Drop)]
pub enum Why {
    /// Shares of columns that leave hardly more unassigned than would be better: the share of each of these columns, and
    /// of each task what is left unassigned, all in parts of which `den` make one whole.
    Loose {
        den: i128,
        shares: Shares,
        left_open: Parts,
    },
    /// An operation of the master's run over the columns leaves the range.
    Overflow(Overflow),
    /// The master's run over the columns makes as many pivots as it may.
    Spent,
}

/// How a node ends.
#[derive(Drop)]
pub enum NodeEnd {
    /// These prices prove that no plan of the node is better.
    Closed(Prices),
    /// It is split by this choice, for this reason, and these prices are handed on.
    Split {
        choice: Choice,
        why: Why,
        prices: Prices,
    },
}

/// What a step makes of a node: a better plan, if it found one, how the node ends, and a script of the tree from the node on, if
/// one was rehearsed.
#[derive(Drop)]
pub struct Step {
    pub plan: Option<Plan>,
    pub end: NodeEnd,
    pub script: Option<Script>,
}
