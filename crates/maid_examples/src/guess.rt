//! A guess at one of two coins: what a common child opens, and what seeing is worth.

ghost use Rattle.maid_examples.specs.TwoCoins.{AreSound, HasWalks, HasRequisites, HasCoinValues};

use arc_laws::one_value;
use maid_model::literals_are_tested;

/// A guess at one of two coins: which walks a common child opens, which parents are requisite, what
/// is trimmed, and what seeing is worth.
pub fn two_coins()
    ensures sound { AreSound }
    ensures walks { HasWalks }
    ensures requisites { HasRequisites }
    ensures values { HasCoinValues }
{
    literals_are_tested();
    one_value();
}
