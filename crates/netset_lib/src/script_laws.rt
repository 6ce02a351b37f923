//! Facts about the answers of the program, each the contract of a function that computes nothing.
//!
//! An answer is a key of its addresses: two answers are the same bytes if and only if they have the same addresses. So
//! each identity of set algebra is an identity of bytes, for scripts of any depth.
ghost use Rattle.std.specs.Prelude.{◌≡◌, ◌↔◌, List, ℕ, Option};
ghost use Rattle.ipnet_base.specs.Address.{Address, IsAddress};
ghost use Rattle.ipnet_sets.specs.Members.{IsMember, HaveSameAddresses};
ghost use Rattle.ipnet_lists.specs.declared.cause.Cause.{Cause};
ghost use Rattle.netset_lib.specs.Answers.{IsSetText};
ghost use Rattle.ipnet_lists.specs.Causes.{IsReportedCause};
ghost use Rattle.ipnet_lists.specs.Lists.{ListEntry, Refusal, IsListRead};
ghost use Rattle.netset_lib.specs.Scripts.{Script, IsCall, IsInScript, Gives, IsListOf};

use crate::answer::Form;
use ipnet::Grammar;
use ipnet_sets::IpSet;

/// Bytes are read as a list in only one way: they have one list of entries, and one list of refused lines. A refused
/// line has one cause, or none.
pub fn a_list_is_read_in_one_way(grammar: Grammar, list: &[u8])
    ensures entries { (index : ℕ) → (entries others : List ListEntry) → (refusals more : List Refusal)
        → IsListRead grammar index list.now entries refusals → IsListRead grammar index list.now others more
        → entries ≡ others }
    ensures refusals { (index : ℕ) → (entries others : List ListEntry) → (refusals more : List Refusal)
        → IsListRead grammar index list.now entries refusals → IsListRead grammar index list.now others more
        → refusals ≡ more }
    ensures causes { (text : List ℕ) → (cause other : Option Cause) → IsReportedCause grammar text cause
        → IsReportedCause grammar text other → cause ≡ other }
{}

/// The texts of two sets in one form are the same bytes if and only if the sets have the same addresses.
pub fn an_answer_is_a_key(form: Form, a: &IpSet, b: &IpSet, first: &[u8], second: &[u8])
    ensures { IsSetText form (IsMember a.now) first.now → IsSetText form (IsMember b.now) second.now
        → (first.now ≡ second.now) ↔ HaveSameAddresses a.now b.now }
{}

/// The text of a set, read as a list in either grammar, has no refused line and exactly the addresses of the set.
pub fn an_answer_is_a_list(form: Form, grammar: Grammar, set: &IpSet, answer: &[u8])
    ensures { IsSetText form (IsMember set.now) answer.now → IsListOf grammar (IsMember set.now) answer.now }
{}

/// A script of calls prints the text of the set that set operations make of its files. The set has valid addresses
/// only. Each call of the script reads files and the answers of other calls, in either form.
pub fn a_script_prints_its_set(form: Form, grammar: Grammar, text: &[u8])
    ensures text { (script : Script) → IsCall script → Gives grammar form script text.now
        → IsSetText form (IsInScript grammar script) text.now }
    ensures addresses { (script : Script) → (x : Address) → IsInScript grammar script x → IsAddress x }
{}

/// Two scripts print the same bytes if and only if they make the same set. So each identity of sets is an identity of
/// bytes, and the answer `netset union LIST` is a key of the addresses of the list.
pub fn scripts_of_one_set_print_one_text(form: Form, grammar: Grammar, first: &[u8], second: &[u8])
    ensures { (script other : Script) → IsCall script → IsCall other → Gives grammar form script first.now
        → Gives grammar form other second.now
        → (first.now ≡ second.now) ↔ ((x : Address) → IsInScript grammar script x ↔ IsInScript grammar other x) }
{}
