// The tasks that a team may begin about a minute.
ghost use Rattle.std.specs.Prelude.{◌≡◌, ◌≤◌, ◌<◌, ℕ, length, vec_capacity};
ghost use Rattle.label_pricing.specs.Near.{AreNear};

use crate::turns::Turn;

/// Puts the tasks that may be begun at a minute from `from` to `to`, rising, in the place of what the list holds. It takes
/// no memory.
pub(crate) fn find_near(turns: &[Turn], from: u32, to: u32, near: &mut Vec<u32>)
    requires few { length turns.now ≤ 400 }
    requires room { 400 ≤ vec_capacity near.old }
    ensures near { (t : ℕ) → from ≤ t → t ≤ to → AreNear turns.now t near.new.items }
    ensures room { 400 ≤ vec_capacity near.new }
{
    near.clear();
    for j in 0..turns.len() as u32 {
        let turn = turns[j as usize];
        if turn.first <= to && from < turn.end {
            near.push(j).unwrap();
        }
    }
}
