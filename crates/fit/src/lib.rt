// What it takes that every deadline holds: the definitions of fit, of the allowances and of the laws of a rule, and the lemmas
// that the searches, the rules and the gate share. There is no code here, but a function for each lemma whose contract it is.
#![tactic(auto)]

mod laws;

pub use laws::{
    all_fit_behind_stands, arrival_keeps_fit_stands, fit_is_in_time_stands,
    fresh_at_any_reading_stands, horizon_decides_stands, idle_fits_as_fresh_stands,
    long_lengths_suffice_stands, tick_keeps_fit_stands,
};
