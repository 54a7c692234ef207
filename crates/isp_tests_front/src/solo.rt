//! Entries whose instances run one by one. What the instances come to is in isp_tests_cases.
mod entries;
mod refused;
