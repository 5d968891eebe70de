//! A heal asks for Work locks in rising order.

ghost use Rattle.afr_law_order.specs.Heal.Heals.{HealersRise, NextRises};

/// In an honest and lawful log of a plan each Work lock that a heal asks for is above all that its actor holds (`heals`): on a
/// higher brick, since a heal locks one object alone. So is that of the next line, where the register of the machine that asks
/// is a heal's (`next`). The discipline lets a healer ask for Work locks outside of a heal, too, and in any order; that its
/// machine never does so is no part of this law.
pub fn heals_ask_in_rising_order()
    ensures heals { HealersRise }
    ensures next { NextRises }
{}
