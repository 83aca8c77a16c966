//! One caster and all its members, as a world sees them: what each keeps, what it was given, and what is in the air.
//! Whatever happens to one of them, they stand in the law of broadcast (tipc_broadcast_law).
#![tactic(auto)]

pub mod laws;
