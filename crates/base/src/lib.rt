// What every layer shares. The notation of the definitions is in specs/.
#![tactic(auto)]

pub mod depth;
pub mod fault;
pub mod key;
pub mod level;
pub mod search;
pub mod sharpness;
