// Nothing runs here: lists, maps by number, and their laws.
