#![tactic(auto)]

// Cases of the definitions of document 01, computed: proofs/ has them, each beside the sentence that it samples. There is no code.
