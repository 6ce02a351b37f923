//! Scripts of the program `netset` whose results are equal because their sets are.
ghost use Rattle.std.specs.Prelude.{◌≡◌};
ghost use Rattle.netset_lib.specs.Scripts.{Script, Union, Intersection, Difference, Complement, Gives};
ghost use Rattle.netset_lib.specs.declared.operation.Families.TheVariants.{Both};

use ipnet::Grammar;
use netset_lib::Form;
use netset_lib::script_laws::scripts_of_one_set_print_one_text;

/// De Morgan's law for answers: the complement of a union and the intersection of the complements are the same bytes,
/// whatever the two scripts are.
pub fn complement_of_a_union(form: Form, grammar: Grammar, first: &[u8], second: &[u8])
    ensures { (a b : Script) → Gives grammar form (Complement Both (Union a b)) first.now
        → Gives grammar form (Intersection (Complement Both a) (Complement Both b)) second.now
        → first.now ≡ second.now }
{
    scripts_of_one_set_print_one_text(form, grammar, first, second);
}

/// A difference in two steps is a difference from a union: the answers are the same bytes.
pub fn difference_in_two_steps(form: Form, grammar: Grammar, first: &[u8], second: &[u8])
    ensures { (a b c : Script) → Gives grammar form (Difference (Difference a b) c) first.now
        → Gives grammar form (Difference a (Union b c)) second.now → first.now ≡ second.now }
{
    scripts_of_one_set_print_one_text(form, grammar, first, second);
}
