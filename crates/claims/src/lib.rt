// No code: claims over the rules.
#![tactic(auto)]
