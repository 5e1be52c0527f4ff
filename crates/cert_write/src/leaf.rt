// The lines of a leaf.
ghost use Rattle.std.specs.Prelude.{◌≡◌, ◌≤◌, ◌<◌, ◌+◌, ◌++◌, ◌∷◌, [], filter, length, map};
ghost use Rattle.std.specs.Fmt.{signed_decimal};
ghost use Rattle.std.specs.List.{flat_map};
ghost use Rattle.arrayvec.specs.ArrayVec.{array_vec_len};
ghost use Rattle.crew_terms.specs.Branches.{Claim};
ghost use Rattle.crew_terms.specs.Limits.{has_required, tasks_in};
ghost use Rattle.crew_terms.specs.Minutes.{priced};
ghost use Rattle.crew_terms.specs.Words.{line_text};
ghost use Rattle.crew_terms.specs.declared.TheConstants.{MOST_TASKS, MOST_TEAMS};
ghost use Rattle.crew_io.specs.Puts.{Puts};
ghost use Rattle.dossier_terms.specs.Dossier.{Leaf};
ghost use Rattle.dossier_terms.specs.Lines.{claim_lines, leaf_lines, price_line};
ghost use Rattle.dossier_terms.specs.declared.DossierForm.TheVariants.{Two};
ghost use Rattle.label_pricing.specs.Pricing.{HasRoom};
ghost use Rattle.line_out.specs.Parts.{next_word, part_word};
ghost use Rattle.potentials.specs.Prices.{ArePricesOf};
ghost use Rattle.potentials.specs.Table.{IsTableOf};
ghost use Rattle.cert_write.specs.Dossiers.{IsPricedClaim, IsPricedLeaf};
ghost use Rattle.cert_write.specs.Leaves.{extra_prices, extra_words, state_line};
ghost use Rattle.cert_write.specs.Tables.{IsRoomOf};

use crate::tables::{Room, put_tables};
use arrayvec::ArrayVec;
use branch_tree::LeafState;
use crew_io::put::put_all;
use crew_io::sink::{Sink, WriteFault};
use crew_terms::MOST_TEAMS;
use dossier_out::number;
use kept_prices::KeptPrices;
use label_pricing::Pricer;
use line_out::{Part, put_line, put_next};
use node_limits::{Limits, is_required};
use potentials::{Prices, Table};

/// The most parts of the line of a task's required teams: a word, the task, and a price for each team.
const MOST_PARTS: usize = MOST_TEAMS + 2;

/// The parts of such a line.
type Line<'a> = ArrayVec<Part<'a>, MOST_PARTS>;

/// The words of the prices of the tasks, behind others of a line.
fn put_prices<K: Sink>(out: &mut K, prices: &Prices) -> Result<(), WriteFault>
    requires { length prices.now.pi ≤ MOST_TASKS }
    ensures { Puts K.Sink (flat_map next_word (map signed_decimal prices.now.pi)) out.old
        out.new result }
{
    for j in 0..prices.tasks() as u32 {
        put_next(out, &Part::Signed(prices.pi(j)))?;
    }
    Ok(())
}

/// The line of the prices of the tasks.
fn put_price_line<K: Sink>(out: &mut K, prices: &Prices) -> Result<(), WriteFault>
    requires { length prices.now.pi ≤ MOST_TASKS }
    ensures { Puts K.Sink (line_text (price_line prices.now.pi)) out.old out.new result }
{
    put_all(out, b"price")?;
    put_prices(out, prices)?;
    put_all(out, b"\n")
}

/// Adds the prices of the teams that the node requires at task `j`.
fn push_extras(line: &mut Line<'_>, limits: &Limits<'_>, prices: &Prices, j: u32)
    requires room { array_vec_len line.old + MOST_TEAMS ≤ MOST_PARTS }
    requires task { j < tasks_in limits.now.limits }
    requires prices { ArePricesOf limits.now.limits prices.now }
    ensures { map part_word line.new.items
        ≡ map part_word line.old.items
        ++ map signed_decimal (extra_prices limits.now.limits prices.now j) }
{
    for k in 0..limits.instance().teams() as u32 {
        if is_required(limits.pair(k, j)) {
            line.push(Part::Signed(prices.rho(k, j)));
        }
    }
}

/// The line of the prices of the teams that the node requires at task `j`.
fn put_extra<K: Sink>(
    out: &mut K,
    limits: &Limits<'_>,
    prices: &Prices,
    j: u32,
) -> Result<(), WriteFault>
    requires task { j < tasks_in limits.now.limits }
    requires prices { ArePricesOf limits.now.limits prices.now }
    ensures { Puts K.Sink (line_text (extra_words limits.now.limits prices.now j)) out.old
        out.new result }
{
    let mut line = Line::new();
    line.push(Part::Word(b"extra"));
    line.push(number(j));
    push_extras(&mut line, limits, prices, j);
    put_line(out, &line)
}

/// The same, if there is such a team.
fn put_if_priced<K: Sink>(
    out: &mut K,
    limits: &Limits<'_>,
    prices: &Prices,
    j: u32,
) -> Result<(), WriteFault>
    requires task { j < tasks_in limits.now.limits }
    requires prices { ArePricesOf limits.now.limits prices.now }
    ensures { Puts K.Sink (flat_map line_text
        (map (extra_words limits.now.limits prices.now)
        (filter (has_required limits.now.limits) (j ∷ []))))
        out.old out.new result }
{
    if limits.required(j) == 0 {
        return Ok(());
    }
    put_extra(out, limits, prices, j)
}

/// The lines of the prices of required teams.
fn put_extras<K: Sink>(out: &mut K, limits: &Limits<'_>, prices: &Prices) -> Result<(), WriteFault>
    requires { ArePricesOf limits.now.limits prices.now }
    ensures { Puts K.Sink (flat_map line_text
        (map (extra_words limits.now.limits prices.now) (priced limits.now.limits)))
        out.old out.new result }
{
    for j in 0..limits.instance().tasks() as u32 {
        put_if_priced(out, limits, prices, j)?;
    }
    Ok(())
}

/// The lines of the numbers of a leaf: its prices, and for each team its worth and its potentials.
fn put_numbers<K: Sink>(
    out: &mut K,
    limits: &Limits<'_>,
    prices: &Prices,
    pricer: &mut Pricer,
    table: &mut Table,
) -> Result<(), WriteFault>
    requires prices { ArePricesOf limits.now.limits prices.now }
    requires room { HasRoom limits.now.limits.instance pricer.old }
    requires table { IsTableOf limits.now.limits.instance table.old }
    ensures puts { (leaf : Leaf) → IsPricedLeaf limits.now.limits prices.now leaf →
        Puts K.Sink (flat_map line_text (leaf_lines Two limits.now.limits leaf)) out.old
        out.new result }
    ensures room { HasRoom limits.now.limits.instance pricer.new }
    ensures table { IsTableOf limits.now.limits.instance table.new }
{
    // An instance has few tasks.
    let _ = limits.instance();
    put_price_line(out, prices)?;
    put_extras(out, limits, prices)?;
    put_tables(out, limits, prices, pricer, table)
}

/// The same of prices at rest, which are put into the room first.
fn put_leaf<K: Sink>(
    out: &mut K,
    limits: &Limits<'_>,
    kept: &KeptPrices,
    room: &mut Room,
) -> Result<(), WriteFault>
    requires prices { ArePricesOf limits.now.limits kept.now }
    requires room { IsRoomOf limits.now.limits.instance room.old }
    ensures puts { (leaf : Leaf) → IsPricedLeaf limits.now.limits kept.now leaf →
        Puts K.Sink (flat_map line_text (leaf_lines Two limits.now.limits leaf)) out.old
        out.new result }
    ensures room { IsRoomOf limits.now.limits.instance room.new }
{
    kept.put(limits, &mut room.prices);
    put_numbers(out, limits, &room.prices, &mut room.pricer, &mut room.table)
}

/// The first line of a leaf.
fn put_state<K: Sink>(out: &mut K, state: LeafState) -> Result<(), WriteFault>
    ensures { Puts K.Sink (line_text (state_line state)) out.old out.new result }
{
    let word = match state {
        LeafState::Bare => b"bare".as_slice(),
        LeafState::Open => b"open".as_slice(),
        LeafState::Closed => b"closed".as_slice(),
    };
    put_line(out, &[Part::Word(b"leaf"), Part::Word(word)])
}

/// The lines of a leaf; a bare one has no numbers.
pub(crate) fn put_claim<K: Sink>(
    out: &mut K,
    limits: &Limits<'_>,
    state: LeafState,
    prices: &KeptPrices,
    room: &mut Room,
) -> Result<(), WriteFault>
    requires prices { ArePricesOf limits.now.limits prices.now }
    requires room { IsRoomOf limits.now.limits.instance room.old }
    ensures puts { (claim : Claim Leaf) → IsPricedClaim limits.now.limits
        (record { state = state; prices = prices.now }) claim →
        Puts K.Sink (flat_map line_text (claim_lines Two limits.now.limits claim)) out.old
        out.new result }
    ensures room { IsRoomOf limits.now.limits.instance room.new }
{
    put_state(out, state)?;
    match state {
        LeafState::Bare => Ok(()),
        LeafState::Open => put_leaf(out, limits, prices, room),
        LeafState::Closed => put_leaf(out, limits, prices, room),
    }
}
