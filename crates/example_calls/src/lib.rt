//! Functions as users of the library write them, each with what it promises, and plain loops over walks and ranges.
//!
//! `borrowing`, `collecting`, `counting`, `searching` and `stepping` have the loops; copy the one that has the form you
//! need. None of them needs a proof file. A function without a contract is still proved safe: no sum overflows, and the
//! loop ends.
//!
//! The other modules have few proof files. `common_supernet` calls itself, so its file says why that ends and
//! proves its last clause. If the contracts of the calls are not enough, the body calls one law of
//! `ipnet::value_laws` on its values. A law does nothing at run time.
#![tactic(auto)]

pub mod borrowing;
pub mod collecting;
pub mod counting;
pub mod lists;
pub mod networks;
pub mod pictures;
pub mod plans;
pub mod routes;
pub mod scripts;
pub mod searching;
pub mod stepping;
pub mod stored;
pub mod texts;
