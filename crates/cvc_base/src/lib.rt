//! The plain types that every crate of `cvc` shares: voltages, names, lists, devices, faults and findings.
//! They only keep what they are given; contracts see a text as its bytes and a list as its items.
#![tactic(auto)]

mod cause;
mod device;
mod fault;
mod finding;
mod ids;
mod line;
mod list;
mod millivolts;
mod param;
mod rule;
mod stop;
mod text;

pub use cause::Cause;
pub use device::{Kind, Volts};
pub use fault::{Fault, FileKind, Place, Refusal};
pub use finding::{Finding, Findings};
pub use ids::{DevId, NetId, NoMemory, Side};
pub use line::{Line, Token, Tokens};
pub use list::ItemList;
pub use millivolts::Mv;
pub use param::{Pair, Pairs, Param, Params, Value};
pub use rule::Rule;
pub use stop::Stop;
pub use text::{Text, Texts};
