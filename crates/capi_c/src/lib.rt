// The functions of `capi` as exports of a static library, declared in include/haspbarley.h: each calls the
// library's function of its name and promises what that promises.
#![tactic(auto)]

mod areas;
mod cells;
mod children;
mod codes;
mod folds;
mod grammars;
mod places;
mod polygons;
mod queries;
