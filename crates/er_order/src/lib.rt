//! Happens-before: which steps of a list come before which in order, which accesses race by it, and the laws of both.
//!
//! Begin with the definitions in `specs/`: `Order` says what happens before what, `Races` which
//! accesses race and what each step is answered, `Reasons` what a race is unordered with, `Clocks`
//! what the vector clocks of a list are.
//!
//! What it promises: order is the least relation that is closed under chains (`order_is_by_chains`); vector clocks decide it
//! (`clocks_decide_order`), and each step moves a few of them (`a_step_moves_its_clocks`); a race is unordered with an earlier access
//! (`a_race_is_unordered_with_an_access`), which is found from the end of its era on (`an_era_is_searched_from_its_end`) and, once accesses of
//! no use are gone, among those that are left (`what_is_of_no_use_may_go`); of two accesses of some bytes of a word that conflict and
//! are in no order one is a race exactly if they have a byte in common (`a_race_has_a_common_byte`); an era is reported once (`an_era_is_reported_once`); more order gives fewer races, and no order at all
//! each race that two threads can make (`more_order_fewer_races`, `with_no_order_each_shared_write_races`); a lock that no two threads hold at
//! once orders what it covers (`a_common_lock_orders`). Such a function does nothing: its contract is the law. The cases in `worked_races` and
//! `worked_reasons` are computed from the definitions alone.
#![tactic(auto)]

pub use bytes::{
    Bytes, a_race_has_a_common_byte, an_era_is_searched_from_its_end, what_is_of_no_use_may_go,
};
pub use laws::{
    a_clock_follows_its_step, a_step_moves_its_clocks, clock_lists_stand_for_clocks,
    clocks_decide_order, order_is_by_chains,
};
pub use locks::a_common_lock_orders;
pub use races::{
    a_word_is_local, an_era_is_reported_once, more_order_fewer_races, the_latest_reads_are_apart,
    with_no_order_each_shared_write_races,
};
pub use reasons::a_race_is_unordered_with_an_access;
pub use worked::{worked_races, worked_reasons};

mod bytes;
mod laws;
mod locks;
mod races;
mod reasons;
mod worked;
