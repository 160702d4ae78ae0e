// The fields of a header, which the stages of a reader cite, and their exactness: demand 3 is proved by them of the definitions in `header`, and what
// follows from it. What a whole header is stands in `header`.
#![tactic(auto)]
