// Job files: reading one whole, and holding what it says.
#![tactic(auto)]

pub mod jobfile;
