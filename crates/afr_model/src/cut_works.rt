//! How a rename's work is cut in its parts, and which folds begin anew in them.
