//! Runs of the whole gang, and the work of a run. What programs come to is in isp_tests_cases.
mod entries;
mod refused;
