// The checksum of a header (document 02, K6): when it is right, and what a checked reading answers by it, are in specs/.
#![tactic(auto)]
