// The claim of C-11 over any list of plan calls, price rows and call records (specs/Claim.antt). It is about the promises of the public calls, so that this crate has
// no code of its own.
