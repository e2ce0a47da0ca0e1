// What include/fenpiling.h declares: each function calls the one of its name in the crate `capi_ids`, `capi_paths`, `capi_arena`, `capi_model`,
// `capi_readings` or `capi_compare`, with the clauses of that one word for word (.ci/contracts compares them).
#![tactic(auto)]

mod arena_calls;
mod compare_calls;
mod id_calls;
mod model_calls;
mod path_calls;
mod reading_calls;
