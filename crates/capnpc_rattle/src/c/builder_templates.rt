//! Templates of what builds structs, with `@name@` for what differs.
use crate::cleared::ClearingLines;

/// What a struct is before it is added to a message, and some of them that are collected.
pub const DRAFT: &str = "struct @name@_draft {
    @members@
};
struct @name@_drafts {
    struct linsjoar_drafts drafts;
};
";

/// How a list of enums is added.
pub const ADD_ENUMS: &str = "
/* Adds a list of enums, by their numbers. */
static inline LINSJOAR_CHECKED enum linsjoar_error @prefix@_add_list(struct linsjoar_message *message, const uint16_t *numbers, size_t count, struct @prefix@_list_orphan *orphan) {
    return linsjoar_add_number_bytes(message, LINSJOAR_TWO_BYTES, count, numbers, 2 * count, &orphan->word);
}
";

/// What makes drafts of a struct, and adds them.
pub const ADD: &str = "
/* The draft of a struct that is to be added: whose fields have their defaults, or what was read, with copies of all that
 * it points to. */
static inline struct @name@_draft @name@_new(void) {
    struct @name@_draft draft;
    memset(&draft, 0, sizeof draft);
    return draft;
}
static inline LINSJOAR_CHECKED enum linsjoar_error @name@_draft_of(const struct @name@_reader *read, struct linsjoar_message *message, struct @name@_draft *draft) {
    memset(draft, 0, sizeof *draft);
    return linsjoar_draft_of(&read->fields, message, @copied_words@, @data_words@, @copied_orphans@, @pointers@);
}

/* Adds the struct of a draft to a message, or finishes the message with it as the root. */
static inline LINSJOAR_CHECKED enum linsjoar_error @name@_add(struct linsjoar_message *message, const struct @name@_draft *draft, struct @name@_orphan *orphan) {
    return linsjoar_add_draft(message, @words@, @data_words@, @orphans@, @pointers@, &orphan->word);
}
static inline LINSJOAR_CHECKED enum linsjoar_error @name@_finish(struct linsjoar_message *message, const struct @name@_draft *draft, size_t *len) {
    struct @name@_orphan root;
    enum linsjoar_error error = @name@_add(message, draft, &root);
    *len = 0;
    if (error == LINSJOAR_OK)
        error = linsjoar_message_set_root(message, root.word);
    return error == LINSJOAR_OK ? linsjoar_message_finish(message, len) : error;
}

/* Adds a list of structs: of an array of drafts, or of those that are pushed one by one, and are in the message's memory
 * until then. The latter begin as zeros. A list that is begun after another one is added before it. */
static inline LINSJOAR_CHECKED enum linsjoar_error @name@_add_list(struct linsjoar_message *message, const struct @name@_draft *drafts, size_t count, struct @name@_list_orphan *orphan) {
    return linsjoar_add_draft_list(message, drafts, count, @data_words@, @pointers@, &orphan->word);
}
static inline LINSJOAR_CHECKED enum linsjoar_error @name@_push(struct linsjoar_message *message, struct @name@_drafts *drafts, const struct @name@_draft *draft) {
    return linsjoar_push_draft(message, &drafts->drafts, draft, 8 * @size@);
}
static inline LINSJOAR_CHECKED enum linsjoar_error @name@_add_drafts(struct linsjoar_message *message, struct @name@_drafts *drafts, struct @name@_list_orphan *orphan) {
    return linsjoar_add_drafts(message, &drafts->drafts, @data_words@, @pointers@, &orphan->word);
}
";

/// Which member of a draft's union is set.
pub const DRAFT_WHICH: &str = "
static inline enum @prefix@_which @prefix@_draft_which(const struct @struct@_draft *draft) {
    return @prefix@_which_of_number(linsjoar_draft_u16(draft->words, @offset@));
}
";

/// The getter and the setter of a draft's number.
pub const SET_NUMBER: &str =
    "static inline @type@ @prefix@_draft_get_@field@@suffix@(const struct @struct@_draft *draft) {
    return @value@;
}
static inline void @prefix@_set_@field@@suffix@(struct @struct@_draft *draft, @type@ value) {
    @code@
}
";

/// The getter and the setter of a draft's pointer.
pub const SET_POINTER: &str =
    "static inline struct @view@_orphan @prefix@_draft_get_@field@(const struct @struct@_draft *draft) {
    struct @view@_orphan orphan;
    orphan.word = draft->orphans[@offset@];
    return orphan;
}
static inline void @prefix@_set_@field@(struct @struct@_draft *draft, struct @view@_orphan orphan) {
    @code@
}
";

/// What sets a pointer to a copy of what one that is read points to.
pub const COPY: &str =
    "static inline LINSJOAR_CHECKED enum linsjoar_error @prefix@_copy_@field@(const struct @struct@_reader *read, struct linsjoar_message *message, struct @struct@_draft *draft) {
    struct linsjoar_pointer_reader pointer = linsjoar_get_pointer(&read->fields, @offset@);
    struct @view@_orphan orphan;
    enum linsjoar_error error = linsjoar_add_copy_of(message, &pointer, &orphan.word);
    if (error == LINSJOAR_OK)
        @prefix@_set_@field@(draft, orphan);
    return error;
}
";

/// The setter of a member of a union that has no value.
pub const SET_VOID: &str = "static inline void @prefix@_set_@field@(struct @struct@_draft *draft) {
    @code@
}
";

/// The setter that selects a group of a union.
pub const INIT: &str = "
/* Selects a group of a union, and clears its fields. */
static inline void @prefix@_init(struct @struct@_draft *draft) {
    @code@
}
";

/// How a group is selected where another member of its union is set.
pub const SELECT_GROUP: &str = "if (linsjoar_draft_u16(draft->words, @offset@) != @number@)
    @name@_init(draft);
";

/// How a group is selected and cleared.
pub const CLEARING: ClearingLines = ClearingLines {
    tag: "linsjoar_set_u16(draft->words, @offset@, @number@);",
    boolean: "linsjoar_set_bool(draft->words, @offset@, 0);",
    number: "linsjoar_set_u@width@(draft->words, @offset@, 0);",
    pointer: "draft->orphans[@index@] = LINSJOAR_NULL_ORPHAN;",
};
