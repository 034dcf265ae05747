// The sizes and bounds, each by its name.
use codes::sizes;
use monitor::Chart;
use rules::RuleList;
use shift::MAX_SHIFT;

pub static BOUNDS: [(&str, u64); 33] = [
    // Of rules.
    ("RULES", RuleList::MAX_RULES as u64),
    ("MAX_WINDOW", RuleList::MAX_WINDOW as u64),
    ("ZONES", rules::ZONES as u64),
    ("ALL_ZONES", RuleList::MAX_ZONE_SET as u64),
    ("MAX_STATES", RuleList::MAX_STATES as u64),
    ("MAX_COUNT", rules::MAX_NUMBER as u64),
    // Of charts and tables.
    ("MAX_SIGMA", Chart::MAX_SIGMA as u64),
    ("WEIGHT_TOTAL", runlength::WEIGHT_TOTAL),
    ("UNITS_PER_ONE", runlength::UNITS_PER_ONE),
    ("MAX_HORIZON", runlength::MAX_HORIZON as u64),
    ("MAX_SHIFT", MAX_SHIFT as u64),
    // Of texts and reports.
    ("MAX_TEXT", text::MAX_TEXT as u64),
    ("MAX_ROWS", table_lines::MAX_ROWS as u64),
    ("NODES", monitor_text::NODES as u64),
    ("TABLE_SIZE", table_report::TABLE_SIZE as u64),
    ("MONITOR_SIZE", monitor_report::MONITOR_SIZE as u64),
    ("WEIGHTS_SIZE", weights_report::WEIGHTS_SIZE as u64),
    // Of the arrays that callers lend; the version.
    ("SLOTS", sizes::SLOTS as u64),
    ("STEP_ANSWER", sizes::STEP_ANSWER as u64),
    ("BATCH_ANSWER", sizes::BATCH_ANSWER as u64),
    ("BRACKET_ANSWER", sizes::BRACKET_ANSWER as u64),
    ("FIGURES", sizes::FIGURES as u64),
    ("KINDS", plot_arrays::KINDS as u64),
    ("VALUES", plot_arrays::VALUES as u64),
    ("VERSION_NUMBER", capi::VERSION as u64),
    // The zones.
    ("ZONE_S", monitor::ZONE_S as u64),
    ("ZONE_A1", monitor::ZONE_A1 as u64),
    ("ZONE_B1", monitor::ZONE_B1 as u64),
    ("ZONE_C1", monitor::ZONE_C1 as u64),
    ("ZONE_C2", monitor::ZONE_C2 as u64),
    ("ZONE_B2", monitor::ZONE_B2 as u64),
    ("ZONE_A2", monitor::ZONE_A2 as u64),
    ("ZONE_C0", monitor::ZONE_C0 as u64),
];
